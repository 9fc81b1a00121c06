// Three truth values.
ghost use Rattle.std.specs.Prelude.{◌≡◌};
ghost use Rattle.pl_expr.specs.Truths.{negation, conjunction, disjunction, known, is_true};

/// What a predicate is of a row: SQL's three truth values.
#[derive(Clone, Copy, Debug, PartialEq, Eq)]
pub enum Truth {
    False,
    Unknown,
    True,
}

impl Truth {
    /// The truth value of a `bool`.
    pub fn known(yes: bool) -> Truth
        ensures { result ≡ known yes }
    {
        if yes { Truth::True } else { Truth::False }
    }

    /// Unknown stays unknown.
    pub fn negated(self) -> Truth
        ensures { result ≡ negation self }
    {
        match self {
            Truth::False => Truth::True,
            Truth::Unknown => Truth::Unknown,
            Truth::True => Truth::False,
        }
    }

    /// False if either is, and true if both are.
    pub fn and(self, other: Truth) -> Truth
        ensures { result ≡ conjunction self other }
    {
        match (self, other) {
            (Truth::False, _) => Truth::False,
            (Truth::Unknown, Truth::False) => Truth::False,
            (Truth::Unknown, _) => Truth::Unknown,
            (Truth::True, other) => other,
        }
    }

    /// True if either is, and false if both are.
    pub fn or(self, other: Truth) -> Truth
        ensures { result ≡ disjunction self other }
    {
        match (self, other) {
            (Truth::True, _) => Truth::True,
            (Truth::Unknown, Truth::True) => Truth::True,
            (Truth::Unknown, _) => Truth::Unknown,
            (Truth::False, other) => other,
        }
    }

    pub fn is_true(self) -> bool
        ensures { result ≡ is_true self }
    {
        matches!(self, Truth::True)
    }
}
