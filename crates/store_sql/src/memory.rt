//! Lists and texts that grow.
ghost use Rattle.std.specs.Prelude.{◌≡◌, ◌++◌, IfErr, IfOk, OnOk, [], ◌∷◌, string_bytes};
ghost use Rattle.store_sql.specs.Leaving.{out_of_memory};
ghost use Rattle.store_sql.specs.Texts.{after};

use std::alloc::Global;
use store_sql_rows::ReadFault;

/// The fault of memory that is refused.
pub fn no_memory() -> ReadFault
    ensures { result ≡ out_of_memory }
{
    ReadFault::Sql(sqlite::Error::SqliteFailure(sqlite::ErrorCode::OutOfMemory))
}

/// Puts an item at the end of a list.
pub fn push<T: Drop>(list: &mut Vec<T>, item: T) -> Result<(), ReadFault>
    ensures items { OnOk result (list.new.items ≡ list.old.items ++ item ∷ []) }
    ensures fault { IfErr result (λ fault. fault ≡ out_of_memory) }
{
    match list.push(item) {
        Ok(()) => Ok(()),
        Err(_) => Err(no_memory()),
    }
}

/// The least text after another.
pub fn text_after(alloc: Global, text: &str) -> Result<String, ReadFault>
    ensures value { IfOk result (λ it. string_bytes it ≡ after text.now) }
    ensures fault { IfErr result (λ fault. fault ≡ out_of_memory) }
{
    match format!(in alloc; "{text}\0") {
        Ok(after) => Ok(after),
        Err(_) => Err(no_memory()),
    }
}
