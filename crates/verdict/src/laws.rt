// Theorems about the definitions, each on the contract of a function that does nothing.
ghost use Rattle.verdict.specs.Laws.{DecimalsRead, LinesFit};

/// The decimal of a number has only digits and no leading zero, and reads as that number. Bytes that read as a number
/// of 32 bits are its decimal.
pub fn decimals_read()
    ensures { DecimalsRead }
{}

/// Every line has at most 33 bytes, and some line has 33.
pub fn lines_fit()
    ensures { LinesFit }
{}
