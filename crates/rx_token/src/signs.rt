ghost use Rattle.rx_token.specs.Sign.{NumbersDiffer};

/// The number of `(`.
pub const OPEN: u8 = 0;
/// The number of `)`.
pub const CLOSE: u8 = 1;
/// The number of `,`.
pub const COMMA: u8 = 2;
/// The number of `;`.
pub const SEMICOLON: u8 = 3;
/// The number of `*`.
pub const STAR: u8 = 4;
/// The number of `=`.
pub const EQUAL: u8 = 5;
/// The number of `<=>`.
pub const SAFE_EQUAL: u8 = 6;
/// The number of `<`.
pub const LESS: u8 = 7;
/// The number of `<=`.
pub const AT_MOST: u8 = 8;
/// The number of `>`.
pub const MORE: u8 = 9;
/// The number of `>=`.
pub const AT_LEAST: u8 = 10;
/// The number of `<>`.
pub const UNEQUAL: u8 = 11;
/// The number of `!=`.
pub const DIFFERENT: u8 = 12;
/// The number of `+`.
pub const PLUS: u8 = 13;
/// The number of `-`.
pub const MINUS: u8 = 14;

/// No two signs have one number.
pub fn numbers_differ()
    ensures { NumbersDiffer }
{}
