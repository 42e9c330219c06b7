//! Why a row or a statement gave nothing.

/// Why a row or a statement gave nothing.
#[derive(Clone, Copy)]
pub enum ReadFault {
    /// The database refused, or it failed.
    Sql(sqlite::Error),
    /// A row does not say what a row of its table says.
    BadRow,
}

impl From<sqlite::Error> for ReadFault {
    ghost use Rattle.std.specs.Prelude.{◌≡◌};
    ghost use Rattle.store_sql_rows.specs.declared.read_fault.ReadFault.TheVariants.{Sql};

    ghost from_gives = { λ error fault. fault ≡ Sql error };

    fn from(error: sqlite::Error) -> ReadFault {
        ReadFault::Sql(error)
    }
}
