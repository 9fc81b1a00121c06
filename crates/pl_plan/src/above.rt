// What stands above a node, as far as the rules ask.
ghost use Rattle.std.specs.Prelude.{◌≡◌};
ghost use Rattle.pl_plan.specs.Above as spec;

/// What stands above a node.
#[derive(Clone, Copy)]
pub struct Above {
    /// Nothing does: the node is the root.
    pub root: bool,
    /// A final, right above.
    pub under_final: bool,
    /// A final, right above or with one motion between.
    pub reached: bool,
    /// Any number of projects and the root, which is a limit: its count.
    pub top: Option<u64>,
    /// Any number of projects, a gather, any number of projects and the root, which is a limit: its count.
    pub over: Option<u64>,
}

impl Above {
    /// Above the root.
    pub fn root() -> Above
        ensures { result ≡ spec.nothing }
    {
        Above {
            root: true,
            under_final: false,
            reached: false,
            top: None,
            over: None,
        }
    }

    /// Above the child of a node that no rule looks through.
    pub fn other() -> Above
        ensures { result ≡ spec.other }
    {
        Above {
            root: false,
            under_final: false,
            reached: false,
            top: None,
            over: None,
        }
    }

    /// Above the child of a final.
    pub fn under_final() -> Above
        ensures { result ≡ spec.under_final }
    {
        Above {
            root: false,
            under_final: true,
            reached: true,
            top: None,
            over: None,
        }
    }

    /// Above the child of a project that stands under this.
    pub fn under_project(self) -> Above
        ensures { result ≡ spec.under_project self }
    {
        Above {
            root: false,
            under_final: false,
            reached: false,
            top: self.top,
            over: self.over,
        }
    }

    /// Above the child of a limit that stands under this.
    pub fn under_limit(self, count: u64) -> Above
        ensures { result ≡ spec.under_limit count self }
    {
        Above {
            root: false,
            under_final: false,
            reached: false,
            top: if self.root { Some(count) } else { None },
            over: None,
        }
    }

    /// Above the child of a gather that stands under this.
    pub fn under_gather(self) -> Above
        ensures { result ≡ spec.under_gather self }
    {
        Above {
            root: false,
            under_final: false,
            reached: self.under_final,
            top: None,
            over: self.top,
        }
    }

    /// Above the child of a redistribute or a broadcast that stands under this.
    pub fn under_motion(self) -> Above
        ensures { result ≡ spec.under_motion self }
    {
        Above {
            root: false,
            under_final: false,
            reached: self.under_final,
            top: None,
            over: None,
        }
    }
}
