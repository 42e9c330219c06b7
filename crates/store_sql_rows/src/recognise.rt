//! Is a connection's schema that of the desk's tables? Each part is compared with what is written out.

ghost use Rattle.std.specs.Prelude.{◌≡◌, ◌↔◌, IsTrue, [], ◌∷◌, pos, codes, length, false, None, Some};
ghost use Rattle.sqlite_schema.specs.Code.{term_to};
ghost use Rattle.sqlite_schema.specs.declared.schema.Kind.TheVariants.{Integer, Text};
ghost use Rattle.sqlite_sql.specs.Term.{col, lit, op2};
ghost use Rattle.sqlite_sql.specs.declared.ops.BinaryOp.TheVariants.{Compare, And};
ghost use Rattle.sqlite_sql.specs.declared.ops.CompareOp.TheVariants.{Ge, Le};
ghost use Rattle.sqlite_value.specs.declared.value.Value.TheVariants.{Int};
ghost use Rattle.sqlite_value.specs.Keys.{plain};
ghost use Rattle.sqlite.specs.Held.{state};
ghost use Rattle.store_sql_rows.specs.Schema.{both, column_of, keyed_table, desk_table, panel_table, command_table, place_table, shown_table, imported_table, schema_0, desk_schema};
ghost use Rattle.store_sql_rows.specs.Recognised.{comparison, key_index};

use sqlite::{Alter, Connection};
use sqlite_items::Items;
use sqlite_schema::code::{Op, Terms};
use sqlite_schema::schema::{Column, Index, Kind, Schema, Stamps, Table};
use sqlite_sql::ops::{BinaryOp, CompareOp};
use sqlite_value::keys::{Collation, Order};
use sqlite_value::value::Value;

/// Is NULL what the column has where no value is given?
fn has_no_default(column: &Column) -> bool
    ensures { IsTrue result ↔ (column.now.default ≡ Value.Null) }
{
    match &column.default {
        Value::Null => true,
        _ => false,
    }
}

/// Is this the column of that name and type?
fn is_column(column: &Column, name: &str, kind: Kind, not_null: bool) -> bool
    ensures { IsTrue result ↔ (column.now ≡ column_of name.now kind not_null) }
{
    column.name.as_slice() == name.as_bytes()
        && column.kind == kind
        && column.is_strict
        && column.not_null == not_null
        && has_no_default(column)
        && column.collation == Collation::Binary
}

/// Is the expression at this place, read to this depth, that column of the row?
fn is_column_term(ops: &[Op], depth: usize, at: usize, column: usize) -> bool
    ensures { IsTrue result ↔ (term_to ops.now depth at ≡ col 1 column) }
{
    if depth == 0 {
        return false;
    }
    match ops.get(at) {
        Some(Op::Column(slot, place)) => *slot == 1 && *place == column,
        _ => false,
    }
}

/// Is the expression at this place, read to this depth, that number?
fn is_number_term(ops: &[Op], depth: usize, at: usize, number: i64) -> bool
    ensures { IsTrue result ↔ (term_to ops.now depth at ≡ lit (Int number)) }
{
    if depth == 0 {
        return false;
    }
    match ops.get(at) {
        Some(Op::Literal(Value::Int(found))) => *found == number,
        _ => false,
    }
}

/// Does the expression at this place, read to this depth, compare that column with that number?
fn is_comparison(
    ops: &[Op],
    depth: usize,
    at: usize,
    how: CompareOp,
    column: usize,
    number: i64,
) -> bool
    ensures { IsTrue result ↔ (term_to ops.now depth at ≡ comparison how column number) }
{
    if depth == 0 {
        return false;
    }
    match ops.get(at) {
        Some(Op::Binary(BinaryOp::Compare(found, Collation::Binary), left, right)) => {
            *found == how
                && is_column_term(ops, depth - 1, *left, column)
                && is_number_term(ops, depth - 1, *right, number)
        }
        _ => false,
    }
}

/// Does the expression at this place, read to this depth, keep that column between the two numbers?
fn is_range(ops: &[Op], depth: usize, at: usize, column: usize, least: i64, greatest: i64) -> bool
    ensures { IsTrue result ↔ (term_to ops.now depth at ≡ both (comparison Ge column least) (comparison Le column greatest)) }
{
    if depth == 0 {
        return false;
    }
    match ops.get(at) {
        Some(Op::Binary(BinaryOp::And, left, right)) => {
            is_comparison(ops, depth - 1, *left, CompareOp::Ge, column, least)
                && is_comparison(ops, depth - 1, *right, CompareOp::Le, column, greatest)
        }
        _ => false,
    }
}

/// Is there no expression?
fn is_none(terms: &Terms) -> bool
    ensures { IsTrue result ↔ (terms.now ≡ []) }
{
    terms.roots.is_empty()
}

/// Is the comparison of that column with that number the only expression?
fn is_only_comparison(terms: &Terms, how: CompareOp, column: usize, number: i64) -> bool
    ensures { IsTrue result ↔ (terms.now ≡ comparison how column number ∷ []) }
{
    let ops = terms.nodes.as_slice();
    match terms.roots.as_slice() {
        [root] => is_comparison(ops, ops.len(), *root, how, column, number),
        _ => false,
    }
}

/// Is the only expression one that keeps that column between the two numbers?
fn is_only_range(terms: &Terms, column: usize, least: i64, greatest: i64) -> bool
    ensures { IsTrue result ↔ (terms.now ≡ both (comparison Ge column least) (comparison Le column greatest) ∷ []) }
{
    let ops = terms.nodes.as_slice();
    match terms.roots.as_slice() {
        [root] => is_range(ops, ops.len(), *root, column, least, greatest),
        _ => false,
    }
}

/// Does no default read the time?
fn has_no_stamps(stamps: &Stamps) -> bool
    ensures { IsTrue result ↔ (stamps.now ≡ record { places = []; terms = []; formats = [] }) }
{
    stamps.places.is_empty() && is_none(&stamps.terms) && stamps.formats.is_empty()
}

/// Are these the places?
fn is_places(places: &Items<usize>, wanted: &[usize]) -> bool
    ensures { IsTrue result ↔ (places.now ≡ wanted.now) }
{
    places.as_slice() == wanted
}

/// Are those places the only key?
fn is_only_key(uniques: &Items<Items<usize>>, key: &[usize]) -> bool
    ensures { IsTrue result ↔ (uniques.now ≡ key.now ∷ []) }
{
    match uniques.as_slice() {
        [only] => is_places(only, key),
        _ => false,
    }
}

/// Is there one order, by the bytes of each column?
fn is_only_plain(orders: &Items<Order>) -> bool
    ensures { IsTrue result ↔ (orders.now ≡ plain ∷ []) }
{
    match orders.as_slice() {
        [only] => *only == Order::PLAIN,
        _ => false,
    }
}

/// Is this, but for its columns and checks, the table of that name with that key?
fn is_keyed_table(table: &Table, name: &str, tree: u32, key: &[usize]) -> bool
    ensures { IsTrue result ↔ (table.now ≡ keyed_table name.now tree table.now.columns key.now table.now.checks) }
{
    table.name.as_slice() == name.as_bytes()
        && table.tree == tree
        && table.key == None
        && table.primary.as_slice() == key
        && is_only_key(&table.uniques, key)
        && is_only_plain(&table.orders)
        && table.references.is_empty()
        && table.computed.is_empty()
        && has_no_stamps(&table.stamps)
        && !table.is_counted
}

/// Are the columns those of the table `desk`?
fn has_desk_columns(table: &Table) -> bool
    ensures { IsTrue result ↔ (table.now.columns ≡ desk_table.columns) }
{
    match table.columns.as_slice() {
        [id, version, last] => {
            is_column(id, "id", Kind::Integer, false)
                && is_column(version, "version", Kind::Integer, true)
                && is_column(last, "last", Kind::Integer, false)
        }
        _ => false,
    }
}

/// Is this the table `desk`?
fn is_desk(table: &Table) -> bool
    ensures { IsTrue result ↔ (table.now ≡ desk_table) }
{
    table.name.as_slice() == "desk".as_bytes()
        && table.tree == 0
        && has_desk_columns(table)
        && table.key == Some(0)
        && is_places(&table.primary, &[0])
        && table.uniques.is_empty()
        && table.orders.is_empty()
        && is_only_comparison(&table.checks, CompareOp::Eq, 0, 1)
        && table.references.is_empty()
        && table.computed.is_empty()
        && has_no_stamps(&table.stamps)
        && !table.is_counted
}

/// Are the columns those of the table `panel`?
fn has_panel_columns(table: &Table) -> bool
    ensures { IsTrue result ↔ (table.now.columns ≡ panel_table.columns) }
{
    match table.columns.as_slice() {
        [name, next] => {
            is_column(name, "name", Kind::Text, true)
                && is_column(next, "next", Kind::Integer, true)
        }
        _ => false,
    }
}

/// Is this the table `panel`?
fn is_panel(table: &Table) -> bool
    ensures { IsTrue result ↔ (table.now ≡ panel_table) }
{
    is_keyed_table(table, "panel", 1, &[1])
        && has_panel_columns(table)
        && is_only_comparison(&table.checks, CompareOp::Ge, 2, 1)
}

/// Are the columns those of the table `command`?
fn has_command_columns(table: &Table) -> bool
    ensures { IsTrue result ↔ (table.now.columns ≡ command_table.columns) }
{
    let [panel, number, point, priority, value, state, a, b] = table.columns.as_slice() else {
        return false;
    };
    if !is_column(panel, "panel", Kind::Text, true) {
        return false;
    }
    if !is_column(number, "number", Kind::Integer, true) {
        return false;
    }
    if !is_column(point, "point", Kind::Text, true) {
        return false;
    }
    if !is_column(priority, "priority", Kind::Integer, true) {
        return false;
    }
    if !is_column(value, "value", Kind::Integer, false) {
        return false;
    }
    if !is_column(state, "state", Kind::Integer, true) {
        return false;
    }
    if !is_column(a, "a", Kind::Integer, false) {
        return false;
    }
    is_column(b, "b", Kind::Integer, false)
}

/// Is this the table `command`?
fn is_command(table: &Table) -> bool
    ensures { IsTrue result ↔ (table.now ≡ command_table) }
{
    is_keyed_table(table, "command", 3, &[1, 2])
        && has_command_columns(table)
        && is_only_range(&table.checks, 6, 0, 2)
}

/// Are the columns those of the table `place`?
fn has_place_columns(table: &Table) -> bool
    ensures { IsTrue result ↔ (table.now.columns ≡ place_table.columns) }
{
    let [point, priority, value] = table.columns.as_slice() else {
        return false;
    };
    if !is_column(point, "point", Kind::Text, true) {
        return false;
    }
    if !is_column(priority, "priority", Kind::Integer, true) {
        return false;
    }
    is_column(value, "value", Kind::Integer, true)
}

/// Is this the table `place`?
fn is_place(table: &Table) -> bool
    ensures { IsTrue result ↔ (table.now ≡ place_table) }
{
    is_keyed_table(table, "place", 5, &[1, 2])
        && has_place_columns(table)
        && is_only_range(&table.checks, 2, 1, 16)
}

/// Are the columns those of the table `shown`?
fn has_shown_columns(table: &Table) -> bool
    ensures { IsTrue result ↔ (table.now.columns ≡ shown_table.columns) }
{
    match table.columns.as_slice() {
        [schedule, value] => {
            is_column(schedule, "schedule", Kind::Text, true)
                && is_column(value, "value", Kind::Integer, false)
        }
        _ => false,
    }
}

/// Is this the table `shown`?
fn is_shown(table: &Table) -> bool
    ensures { IsTrue result ↔ (table.now ≡ shown_table) }
{
    is_keyed_table(table, "shown", 7, &[1]) && has_shown_columns(table) && is_none(&table.checks)
}

/// Are the columns those of the table `imported`?
fn has_imported_columns(table: &Table) -> bool
    ensures { IsTrue result ↔ (table.now.columns ≡ imported_table.columns) }
{
    match table.columns.as_slice() {
        [calendar, entry] => {
            is_column(calendar, "calendar", Kind::Text, true)
                && is_column(entry, "entry", Kind::Text, true)
        }
        _ => false,
    }
}

/// Is this the table `imported`?
fn is_imported(table: &Table) -> bool
    ensures { IsTrue result ↔ (table.now ≡ imported_table) }
{
    is_keyed_table(table, "imported", 9, &[1, 2])
        && has_imported_columns(table)
        && is_none(&table.checks)
}

/// Are these the six tables, in the order in which they are made?
fn are_tables(tables: &[Table]) -> bool
    ensures { IsTrue result ↔ (tables.now ≡ desk_schema.tables) }
{
    let [desk, panel, command, place, shown, imported] = tables else {
        return false;
    };
    if !is_desk(desk) {
        return false;
    }
    if !is_panel(panel) {
        return false;
    }
    if !is_command(command) {
        return false;
    }
    if !is_place(place) {
        return false;
    }
    if !is_shown(shown) {
        return false;
    }
    is_imported(imported)
}

/// Is this the index of that table's key?
fn is_key_index(index: &Index, name: &str, tree: u32, table: u32, columns: &[usize]) -> bool
    ensures { IsTrue result ↔ (index.now ≡ key_index name.now tree table columns.now) }
{
    index.name.as_slice() == name.as_bytes()
        && index.tree == tree
        && index.table == table
        && is_places(&index.columns, columns)
        && index.order == Order::PLAIN
        && index.is_unique
}

/// Are these the indexes of the five keys?
#[tactic(auto, using(crate::proofs::Indexes::desk_indexes))]
fn are_indexes(indexes: &[Index]) -> bool
    ensures { IsTrue result ↔ (indexes.now ≡ desk_schema.indexes) }
{
    let [panel, command, place, shown, imported] = indexes else {
        return false;
    };
    if !is_key_index(panel, "sqlite_autoindex_panel_1", 2, 1, &[1]) {
        return false;
    }
    if !is_key_index(command, "sqlite_autoindex_command_1", 4, 3, &[1, 2]) {
        return false;
    }
    if !is_key_index(place, "sqlite_autoindex_place_1", 6, 5, &[1, 2]) {
        return false;
    }
    if !is_key_index(shown, "sqlite_autoindex_shown_1", 8, 7, &[1]) {
        return false;
    }
    is_key_index(imported, "sqlite_autoindex_imported_1", 10, 9, &[1, 2])
}

/// Is this the schema of the six tables?
fn is_desk_schema(schema: &Schema) -> bool
    ensures { IsTrue result ↔ (schema.now ≡ desk_schema) }
{
    are_tables(schema.tables.as_slice())
        && are_indexes(schema.indexes.as_slice())
        && schema.views.is_empty()
}

/// Is there no table, index or view?
fn is_bare_schema(schema: &Schema) -> bool
    ensures { IsTrue result ↔ (schema.now ≡ schema_0) }
{
    schema.tables.is_empty() && schema.indexes.is_empty() && schema.views.is_empty()
}

/// Are the desk's tables what is in the file, and nothing else?
pub fn has_desk_schema<S: Alter>(conn: &Connection<S>) -> bool
    ensures { IsTrue result ↔ ((state S.Store conn.now).now.schema ≡ desk_schema) }
{
    is_desk_schema(conn.schema())
}

/// Is nothing in the file?
pub fn has_no_schema<S: Alter>(conn: &Connection<S>) -> bool
    ensures { IsTrue result ↔ ((state S.Store conn.now).now.schema ≡ schema_0) }
{
    is_bare_schema(conn.schema())
}
