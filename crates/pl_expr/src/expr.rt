// The tree of a predicate.
ghost use Rattle.std.specs.Prelude.{◌≡◌, min, length, map, IfOk};
ghost use Rattle.pl_expr.specs.Entries.{entries_of, in_turn};

use ic_base::Text;
use sqlite_items::{Boxed, Items};
use std::alloc::{AllocError, Global};

/// How two values are compared.
#[derive(Clone, Copy, Debug, PartialEq, Eq)]
pub enum CompareOp {
    Eq,
    Ne,
    Lt,
    Le,
    Gt,
    Ge,
}

/// What is compared or tested: a column, or a literal.
#[derive(Drop, Debug)]
pub enum Operand {
    /// A column by its position from 0.
    Col(u32),
    /// An integer. Beside a wide it is one too.
    Int(i64),
    Chars(Text),
    Null,
}

/// A predicate: SQL's search condition.
#[derive(Drop, Debug)]
#[cycle(expr)]
pub enum Expr {
    /// Unknown if an operand is null.
    Compare {
        op: CompareOp,
        left: Operand,
        right: Operand,
    },
    /// True with no parts.
    And(Items<Expr>),
    /// False with no parts.
    Or(Items<Expr>),
    Not(Boxed<Expr>),
    /// Never unknown.
    IsNull(Operand),
}

/// The parts of an `And` or an `Or`, in their order.
pub type Exprs = Items<Expr>;

impl Operand {
    /// The same operand again. A text takes memory of its own.
    pub fn copy(&self, alloc: Global) -> Result<Operand, AllocError>
        ensures { IfOk result (λ x. x ≡ self.now) }
    {
        match self {
            Operand::Col(place) => Ok(Operand::Col(*place)),
            Operand::Int(n) => Ok(Operand::Int(*n)),
            Operand::Chars(text) => Ok(Operand::Chars(text.copy(alloc)?)),
            Operand::Null => Ok(Operand::Null),
        }
    }
}

#[cycle(copy)]
fn copy_all(alloc: Global, parts: &[Expr]) -> Result<Exprs, AllocError>
    ensures { IfOk result (λ x. x ≡ parts.now) }
{
    let mut copies = Items::new(alloc);
    for part in parts {
        copies.push(part.copy(alloc)?)?;
    }
    Ok(copies)
}

impl Expr {
    /// The same predicate again, in memory of its own.
    #[cycle(copy)]
    pub fn copy(&self, alloc: Global) -> Result<Expr, AllocError>
        ensures { IfOk result (λ x. x ≡ self.now) }
    {
        match self {
            Expr::Compare { op, left, right } => Ok(Expr::Compare {
                op: *op,
                left: left.copy(alloc)?,
                right: right.copy(alloc)?,
            }),
            Expr::And(parts) => Ok(Expr::And(copy_all(alloc, parts.as_slice())?)),
            Expr::Or(parts) => Ok(Expr::Or(copy_all(alloc, parts.as_slice())?)),
            Expr::Not(part) => Ok(Expr::Not(Boxed::new(alloc, part.get().copy(alloc)?)?)),
            Expr::IsNull(x) => Ok(Expr::IsNull(x.copy(alloc)?)),
        }
    }
}

#[cycle(size)]
fn size_of_all(parts: &[Expr]) -> usize
    ensures { result ≡ min (length (in_turn (map entries_of parts.now))) 18446744073709551615 }
{
    let mut size: usize = 0;
    for part in parts {
        size = size.saturating_add(part.size());
    }
    size
}

impl Expr {
    /// How many expressions and operands it has, or the greatest number if there are more.
    #[cycle(size)]
    pub fn size(&self) -> usize
        ensures { result ≡ min (length (entries_of self.now)) 18446744073709551615 }
    {
        match self {
            Expr::Compare {
                op: _,
                left: _,
                right: _,
            } => 3,
            Expr::And(parts) => size_of_all(parts.as_slice()).saturating_add(1),
            Expr::Or(parts) => size_of_all(parts.as_slice()).saturating_add(1),
            Expr::Not(part) => part.get().size().saturating_add(1),
            Expr::IsNull(_) => 2,
        }
    }
}
