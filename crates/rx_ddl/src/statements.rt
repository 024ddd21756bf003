use rx_value::{Bytes, List, NameList};

/// An argument of a type, as the 10 of `varchar(10)`.
#[derive(Drop)]
pub enum Argument {
    Number(u128),
    /// A text between quotes, decoded.
    Text(Bytes),
}

/// An attribute of a column.
#[derive(Drop)]
pub enum Attribute {
    Unsigned,
    Zerofill,
    NotNull,
    Null,
    /// `CHARACTER SET`, with the name of the set as written.
    CharacterSet(Bytes),
    /// `COLLATE`, with the name of the collation as written.
    Collate(Bytes),
    /// `AUTO_INCREMENT`, `COMMENT` or `DEFAULT`, which say nothing of what is read.
    Other,
}

/// A column as it is declared: its name, the word of its type with its arguments, and its attributes in order.
#[derive(Drop)]
pub struct ColumnDefinition {
    pub name: Bytes,
    pub kind: Bytes,
    pub arguments: ArgumentList,
    pub attributes: AttributeList,
}

/// What a key begins with.
#[derive(Clone, Copy)]
pub enum KeyKind {
    Primary,
    Unique,
    Plain,
    Fulltext,
    Spatial,
}

/// A part of a key: the name of a column, its prefix length in characters where one is written, and whether DESC is.
#[derive(Drop)]
pub struct KeyPart {
    pub column: Bytes,
    pub prefix: Option<u128>,
    pub descending: bool,
}

/// What stands behind the parts of a key.
#[derive(Drop)]
pub enum Method {
    /// `USING`, with its word as written.
    Using(Bytes),
    /// `COMMENT`, whose text says nothing of what is read.
    Comment,
}

/// A key as it is declared. `name` is `PRIMARY` where it is the primary key.
#[derive(Drop)]
pub struct KeyDefinition {
    pub kind: KeyKind,
    pub name: Bytes,
    pub parts: KeyPartList,
    pub methods: MethodList,
}

/// A column or a key.
#[derive(Drop)]
pub enum CreateDefinition {
    Column(ColumnDefinition),
    Key(KeyDefinition),
}

/// An option of the table: the words before its `=` as written, and the text of the word, number or string behind it.
#[derive(Drop)]
pub struct TableOption {
    pub words: NameList,
    pub value: Bytes,
}

/// A CREATE TABLE statement as it is written.
#[derive(Drop)]
pub struct CreateTable {
    pub table: Bytes,
    pub definitions: DefinitionList,
    pub options: OptionList,
}

/// Arguments of a type in order.
pub type ArgumentList = List<Argument>;
/// Attributes of a column in order.
pub type AttributeList = List<Attribute>;
/// Parts of a key in order.
pub type KeyPartList = List<KeyPart>;
/// What stands behind the parts of a key, in order.
pub type MethodList = List<Method>;
/// Columns and keys in order.
pub type DefinitionList = List<CreateDefinition>;
/// Options of a table in order.
pub type OptionList = List<TableOption>;
