//! The tables of the store.

use sql_tables::Table;

/// Every table. Each is made after those that it refers to.
pub const TABLES: [Table; 11] = [
    Table::Edition,
    Table::Supervisor,
    Table::Project,
    Table::Student,
    Table::Round,
    Table::OldChoice,
    Table::OldPlacement,
    Table::Import,
    Table::RoundAim,
    Table::Choice,
    Table::Placement,
];

/// Those in which rows are replaced or taken out where tables of an earlier edition are migrated.
pub const MIGRATED: [Table; 3] = [Table::Edition, Table::OldChoice, Table::OldPlacement];
