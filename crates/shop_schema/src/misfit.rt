// What is wrong with the tables of a database.
use crate::form::ShopTable;
use sqlite::types::Bytes;
use std::fmt;

/// What is wrong with a table or a column.
#[derive(Clone, Copy, Debug, PartialEq, Eq, Hash)]
pub enum Wrong {
    /// Something else has the table's name, or the table can't be read.
    NoTable,
    /// The table has no such column.
    NoColumn,
    /// The column is of another type.
    OtherType,
    /// The column compares texts in another way than byte by byte.
    OtherCollation,
    /// The table's primary key isn't this column, alone or with those that belong to it.
    OtherKey,
    /// The column is none of the shop's, and no row can be added without a value for it.
    MustBeGiven,
}

/// The first table and the first column with which something is wrong, and what it is.
#[derive(Debug, Drop)]
pub struct Misfit {
    /// The table.
    pub table: ShopTable,
    /// The column's name: as the shop has it, or as the file has it where it is none of the shop's. It is empty where the table
    /// itself is wrong.
    pub column: Bytes,
    /// What is wrong.
    pub wrong: Wrong,
}

/// Why the tables of a database can't be used.
#[derive(Debug, Drop)]
pub enum SchemaError {
    /// There is no memory.
    Memory,
    /// A statement failed.
    Failed,
    /// A table has another form.
    Misfit(Misfit),
}

impl fmt::Display for Misfit {
    fn fmt<W: fmt::Write>(&self, f: &mut fmt::Formatter<W>) -> fmt::Result {
        let table = self.table.name();
        match self.wrong {
            Wrong::NoTable => return write!(f, "{table} isn't a table that can be read"),
            Wrong::NoColumn => write!(f, "table {table} has no column ")?,
            Wrong::OtherType => write!(f, "table {table} has another type for column ")?,
            Wrong::OtherCollation => write!(f, "table {table} has another collation for column ")?,
            Wrong::OtherKey => write!(f, "table {table} has another primary key for column ")?,
            Wrong::MustBeGiven => write!(f, "table {table} takes no row without column ")?,
        }
        write_name(f, self.column.as_slice())
    }
}

// Writes a name on one line: `?` stands for what is no text, and for each control character.
fn write_name<W: fmt::Write>(f: &mut fmt::Formatter<W>, name: &[u8]) -> fmt::Result {
    let Ok(text) = str::from_utf8(name) else {
        return f.write_str("?");
    };
    for letter in text.chars() {
        f.write_char(if letter.is_control() { '?' } else { letter })?;
    }
    Ok(())
}
