// Values and their kinds.
ghost use Rattle.std.specs.Prelude.{◌≡◌, ◌↔◌, IsTrue, IfOk};
ghost use Rattle.ic_row.specs.Values.{is_null, kind_of, Presents};

use ic_base::Text;
use std::alloc::{AllocError, Global};

/// One value of a row. Two values are equal only if kind and content are the same: int 5 and wide 5 differ.
#[derive(Drop, Debug)]
pub enum Value {
    /// SQL's null: no value.
    Null,
    Int(i64),
    /// A sum of ints, which can pass 64 bits.
    Wide(i128),
    Chars(Text),
}

/// The kind of a column's values. A null has no kind.
#[derive(Clone, Copy, Debug, PartialEq, Eq)]
pub enum Kind {
    Int,
    Wide,
    Chars,
}

impl Value {
    pub fn is_null(&self) -> bool
        ensures { result ≡ is_null self.now }
    {
        matches!(self, Value::Null)
    }

    /// The value, or `None` if it is null.
    pub fn present(&self) -> Option<&Value>
        ensures { Presents result self.now }
    {
        match self {
            Value::Null => None,
            _ => Some(self),
        }
    }

    /// The kind, or `None` if the value is null.
    pub fn kind(&self) -> Option<Kind>
        ensures { result ≡ kind_of self.now }
    {
        match self {
            Value::Null => None,
            Value::Int(_) => Some(Kind::Int),
            Value::Wide(_) => Some(Kind::Wide),
            Value::Chars(_) => Some(Kind::Chars),
        }
    }

    /// A copy of the value. Only a text takes memory: its bytes are copied once.
    pub fn copy(&self, alloc: Global) -> Result<Value, AllocError>
        ensures { IfOk result (λ v. v ≡ self.now) }
    {
        match self {
            Value::Null => Ok(Value::Null),
            Value::Int(n) => Ok(Value::Int(*n)),
            Value::Wide(n) => Ok(Value::Wide(*n)),
            Value::Chars(t) => Ok(Value::Chars(t.copy(alloc)?)),
        }
    }
}
