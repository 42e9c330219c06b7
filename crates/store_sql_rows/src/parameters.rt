//! The parameters of a statement.
ghost use Rattle.std.specs.Prelude.{◌≡◌, ◌<◌, ◌^◌, pos};
ghost use Rattle.store_sql_rows.specs.Cells.{cell_of};
ghost use Rattle.sqlite_value.specs.declared.value.Value.TheVariants.{Int, Text};
ghost use Rattle.sqlite_value.specs.Value.{owned};

use points::Name;
use sqlite::types::ValueRef;

/// A name.
pub fn text(name: &Name) -> ValueRef<'_>
    ensures { owned result ≡ Text name.now }
{
    ValueRef::Text(name.as_str().as_bytes())
}

/// A number of no more than 63 bits.
pub fn count(number: u64) -> ValueRef<'static>
    requires { number < 2 ^ 63 }
    ensures { owned result ≡ Int (pos number) }
{
    ValueRef::Int(number as i64)
}

/// A number.
pub fn whole(number: i64) -> ValueRef<'static>
    ensures { owned result ≡ Int number }
{
    ValueRef::Int(number)
}

/// A number or NULL.
pub fn optional(number: Option<i64>) -> ValueRef<'static>
    ensures { owned result ≡ cell_of number }
{
    match number {
        Some(number) => ValueRef::Int(number),
        None => ValueRef::Null,
    }
}

/// A text.
pub fn words(text: &str) -> ValueRef<'_>
    ensures { owned result ≡ Text text.now }
{
    ValueRef::Text(text.as_bytes())
}
