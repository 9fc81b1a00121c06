// The receiving ends of one motion.
ghost use Rattle.std.specs.Prelude.{◌≡◌};

use std::marker::Model;

/// Positions of ends, seen as their list.
#[derive(Drop)]
pub struct Row {
    items: Vec<usize>,
}

impl Model for Row {
    ghost use Rattle.std.specs.Prelude.{ℕ, List};

    ghost Value = { List ℕ };

    ghost view = { λ r. r.items.items };
}

impl Row {
    /// Takes no memory.
    pub fn from_vec(items: Vec<usize>) -> Row
        ensures { result ≡ items.items }
    {
        Row { items }
    }

    pub fn as_slice(&self) -> &[usize]
        ensures { result.now ≡ self.now }
    {
        self.items.as_slice()
    }
}
