use rx_value::Bytes;

/// Why a segment of a script is refused. They are tested in this order.
#[derive(Drop)]
pub enum What {
    /// There is a place in it that no token fits.
    NotAToken,
    /// Its tokens are no SELECT and no SET.
    NotInGrammar,
    /// The first name of a SELECT, in the order of the text, that is not the table's, no index and no column, or the
    /// first place in ORDER BY that the select list doesn't have, by its digits.
    UnknownName { name: Bytes },
    /// Two sides of a test are of different kinds, LIKE stands on a column of integers, or SUM on one of texts.
    TypeMismatch,
    /// A column stands for many rows at once.
    NotGrouped,
    /// The first setting, in the order of the text, that there isn't or that takes no such value.
    BadSetting { name: Bytes },
}

/// Why a text is no script over a table.
#[derive(Drop)]
pub enum ScriptFault {
    /// The first segment that is refused, by its number from 1.
    Bad { statement: u64, what: What },
    /// There was no memory for the script.
    NoMemory,
}
