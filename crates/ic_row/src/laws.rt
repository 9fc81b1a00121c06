// Laws of the spelling, the order and the segment. Each is the contract of a function with an empty body.
ghost use Rattle.ic_row.specs.Laws.{ReadsWhatIsSpelled, HasOneSpelling, IsPrefixFree, BeginsAlone, OrdersRows, HashesByKey};

/// A spelled row is read back as the same row.
pub fn reads_what_is_spelled()
    ensures { ReadsWhatIsSpelled }
{}

/// Two different rows have different spellings. That each row has only one spelling needs no law: spelling is a
/// function.
pub fn has_one_spelling()
    ensures { HasOneSpelling }
{}

/// No spelling is a proper prefix of another.
pub fn is_prefix_free()
    ensures { IsPrefixFree }
{}

/// If bytes begin with the spelling of a row, they begin with no other row's.
pub fn begins_alone()
    ensures { BeginsAlone }
{}

/// Comparing by any keys is a preorder: each row equals itself, comparing the other way round reverses the answer, and
/// if a isn't after b, and b isn't after c, then a isn't after c.
pub fn orders_rows()
    ensures { OrdersRows }
{}

/// Rows with equal keys belong to the same segment, even if the two keys are in different columns.
pub fn hashes_by_key()
    ensures { HashesByKey }
{}
