// Where a value stands in a document.
ghost use Rattle.std.specs.Prelude.{◌≡◌, ◌∷◌, ◌++◌, OnOk, IfOk, string_bytes};
ghost use Rattle.pl_read.specs.Paths.{member, index, path_of, text_of};
ghost use Rattle.pl_read.specs.Faults.{fault_at, Tells};

use crate::fault::{DocFault, DocNo, Flaw};
use ic_base::Text;
use std::alloc::{AllocError, Global};

/// Where a value stands: each value below the document names the one around it. Takes no memory; only a fault makes a
/// text of it.
#[derive(Clone, Copy)]
pub(crate) enum Place<'a> {
    Document,
    Member {
        around: &'a Place<'a>,
        name: &'a str,
    },
    Item {
        around: &'a Place<'a>,
        at: usize,
    },
}

impl<'a> Place<'a> {
    pub(crate) fn member(&'a self, name: &'a str) -> Place<'a>
        ensures { path_of result ≡ member name.now ∷ path_of self.now }
    {
        Place::Member { around: self, name }
    }

    /// The item of an array, from 0.
    pub(crate) fn item(&'a self, at: usize) -> Place<'a>
        ensures { path_of result ≡ index at ∷ path_of self.now }
    {
        Place::Item { around: self, at }
    }

    fn push_to(&self, text: &mut String) -> Result<(), AllocError>
        ensures { OnOk result (string_bytes text.new ≡ string_bytes text.old ++ text_of (path_of self.now)) }
    {
        match self {
            Place::Document => text.push_str("$"),
            Place::Member { around, name } => {
                around.push_to(text)?;
                text.push_str(".")?;
                text.push_str(name)
            }
            Place::Item { around, at } => {
                around.push_to(text)?;
                write!(text, "[{at}]")
            }
        }
    }

    /// This is wrong here.
    pub(crate) fn fault(&self, alloc: Global, flaw: Flaw) -> Result<DocFault, AllocError>
        ensures { IfOk result (λ f. f ≡ fault_at (path_of self.now) flaw) }
    {
        let mut path = String::new(alloc);
        self.push_to(&mut path)?;
        Ok(DocFault {
            code: flaw.code(),
            path: Text::from_string(path),
        })
    }

    /// Refuses what stands here.
    pub(crate) fn no(&self, alloc: Global, flaw: Flaw) -> DocNo
        ensures { Tells result (fault_at (path_of self.now) flaw) }
    {
        match self.fault(alloc, flaw) {
            Ok(fault) => DocNo::Fault(fault),
            Err(_) => DocNo::Memory,
        }
    }
}
