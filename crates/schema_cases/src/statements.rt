use rx_ddl::{
    Argument, Attribute, ColumnDefinition, CreateDefinition, CreateFault, CreateTable,
    KeyDefinition, KeyKind, KeyPart, Method, TableOption, read_create, write_create,
};
use std::alloc::{AllocError, Global};

// Appends a piece to a text.
fn show(text: &mut Vec<u8>, piece: &[u8]) -> Result<(), AllocError> {
    text.extend_from_slice(piece)
}

fn show_argument(alloc: Global, text: &mut Vec<u8>, argument: &Argument) -> Result<(), AllocError> {
    show(text, b" #")?;
    match argument {
        Argument::Number(n) => show(text, format!(in alloc; "{n}")?.as_bytes()),
        Argument::Text(value) => show(text, value.as_slice()),
    }
}

fn show_attribute(text: &mut Vec<u8>, attribute: &Attribute) -> Result<(), AllocError> {
    let (front, word): (&[u8], &[u8]) = match attribute {
        Attribute::Unsigned => (b" unsigned", b""),
        Attribute::Zerofill => (b" zerofill", b""),
        Attribute::NotNull => (b" never_null", b""),
        Attribute::Null => (b" null", b""),
        Attribute::CharacterSet(word) => (b" set:", word.as_slice()),
        Attribute::Collate(word) => (b" collate:", word.as_slice()),
        Attribute::Other => (b" other", b""),
    };
    show(text, front)?;
    show(text, word)
}

fn show_column(
    alloc: Global,
    text: &mut Vec<u8>,
    column: &ColumnDefinition,
) -> Result<(), AllocError> {
    show(text, column.name.as_slice())?;
    show(text, b" ")?;
    show(text, column.kind.as_slice())?;
    for argument in column.arguments.as_slice() {
        show_argument(alloc, text, argument)?;
    }
    for attribute in column.attributes.as_slice() {
        show_attribute(text, attribute)?;
    }
    Ok(())
}

fn show_part(alloc: Global, text: &mut Vec<u8>, part: &KeyPart) -> Result<(), AllocError> {
    show(text, b" ")?;
    show(text, part.column.as_slice())?;
    if let Some(prefix) = part.prefix {
        show(text, format!(in alloc; ":{prefix}")?.as_bytes())?;
    }
    if part.descending {
        show(text, b" down")?;
    }
    Ok(())
}

fn kind_name(kind: KeyKind) -> &'static [u8] {
    match kind {
        KeyKind::Primary => b"Primary ",
        KeyKind::Unique => b"Unique ",
        KeyKind::Plain => b"Plain ",
        KeyKind::Fulltext => b"Fulltext ",
        KeyKind::Spatial => b"Spatial ",
    }
}

fn show_key(alloc: Global, text: &mut Vec<u8>, key: &KeyDefinition) -> Result<(), AllocError> {
    show(text, kind_name(key.kind))?;
    show(text, key.name.as_slice())?;
    for part in key.parts.as_slice() {
        show_part(alloc, text, part)?;
    }
    for method in key.methods.as_slice() {
        match method {
            Method::Using(word) => {
                show(text, b" by ")?;
                show(text, word.as_slice())?;
            }
            Method::Comment => show(text, b" comment")?,
        }
    }
    Ok(())
}

fn show_option(text: &mut Vec<u8>, option: &TableOption) -> Result<(), AllocError> {
    for word in option.words.as_slice() {
        show(text, b" ")?;
        show(text, word.as_slice())?;
    }
    show(text, b"=")?;
    show(text, option.value.as_slice())
}

// The table, then each definition and each option behind a stroke.
fn shown(alloc: Global, create: &CreateTable) -> Result<Vec<u8>, AllocError> {
    let mut text = Vec::new(alloc);
    show(&mut text, create.table.as_slice())?;
    for definition in create.definitions.as_slice() {
        show(&mut text, b" | ")?;
        match definition {
            CreateDefinition::Column(column) => show_column(alloc, &mut text, column)?,
            CreateDefinition::Key(key) => show_key(alloc, &mut text, key)?,
        }
    }
    for option in create.options.as_slice() {
        show(&mut text, b" |")?;
        show_option(&mut text, option)?;
    }
    Ok(text)
}

// Where a text is no statement.
fn refusal(alloc: Global, fault: CreateFault) -> Result<Vec<u8>, AllocError> {
    match fault {
        CreateFault::NotInGrammar => Vec::from_slice(alloc, b"not in grammar"),
        CreateFault::NoMemory => Err(AllocError),
    }
}

/// A text's statement, part by part.
pub(crate) fn statement(alloc: Global, text: &[u8]) -> Result<Vec<u8>, AllocError> {
    match read_create(alloc, text) {
        Ok(create) => shown(alloc, &create),
        Err(fault) => refusal(alloc, fault),
    }
}

/// How many columns and keys a text's statement has, and how many options.
pub(crate) fn sizes(alloc: Global, text: &[u8]) -> Result<Vec<u8>, AllocError> {
    match read_create(alloc, text) {
        Ok(create) => {
            let items = create.definitions.as_slice().len();
            let options = create.options.as_slice().len();
            let bytes = text.len();
            let line = format!(in alloc; "{bytes} bytes: {items} items, {options} options")?;
            Vec::from_slice(alloc, line.as_bytes())
        }
        Err(fault) => refusal(alloc, fault),
    }
}

/// The canonical text of a text's statement.
pub(crate) fn canonical_statement(alloc: Global, text: &[u8]) -> Result<Vec<u8>, AllocError> {
    match read_create(alloc, text) {
        Ok(create) => Vec::from_slice(alloc, write_create(alloc, &create)?.as_slice()),
        Err(fault) => refusal(alloc, fault),
    }
}
