// Laws of counts. Each is the contract of a function with an empty body.
ghost use Rattle.ic_chunk.specs.CountLaws.{CountsRows, CountTells};

/// The number of rows that end in some payloads is the number of rows that they assemble to.
pub fn counts_rows()
    ensures { CountsRows }
{}

/// A count of 64 bits is the number of rows that the payloads assemble to, up to its greatest value.
pub fn count_tells()
    ensures { CountTells }
{}
