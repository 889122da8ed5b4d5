//! Routing tables of a node with the interfaces a, b and c: `route text TEXT`, `route to ADDRESS by TEXT`,
//! `route add TEXT + TEXT`.

ghost use Rattle.std.specs.Prelude.{IfOk, length};
ghost use Rattle.csp_route.specs.Routes.{IsWithin};

use csp_base::Name;
use csp_cases::Case;
use csp_route::{RouteError, Row, Table};

/// Tells what is written of a table or why its text is refused, which row leads to an address, or two tables in one.
pub(super) fn answer(case: &mut Case) {
    let (Ok(a), Ok(b), Ok(c)) = (Name::from("a"), Name::from("b"), Name::from("c")) else {
        return case.misread();
    };
    let names = [a, b, c];
    match case.word() {
        "text" => match table(case, case.rest(), &names) {
            Ok(table) => written(case, &table, &names),
            Err(error) => write!(case, "{:?} at {}", error.kind, error.at),
        },
        "to" => found(case, &names),
        "add" => added(case, &names),
        _ => case.misread(),
    }
}

/// The table of a text, or why it is refused.
fn table(case: &mut Case, text: &str, names: &[Name]) -> Result<Table, RouteError>
    ensures { IfOk result (λ table. IsWithin (length names.now) table) }
{
    let bytes = case.unescaped(text);
    Table::parse_bytes(bytes.as_slice(), names)
}

/// Tells the text that is written of a table.
fn written(case: &mut Case, table: &Table, names: &[Name])
    requires { IsWithin (length names.now) table.now }
{
    match table.write(case.alloc(), names) {
        Ok(text) => case.tell(text.as_str()),
        Err(_) => case.lacks_memory(),
    }
}

/// Tells the row that leads to an address: its masked address, its mask, its interface, and the next hop.
fn found(case: &mut Case, names: &[Name]) {
    let addr = case.addr();
    if !case.passes("by") {
        case.misread();
    }
    match table(case, case.rest(), names) {
        Err(_) => case.misread(),
        Ok(table) => match table.find(addr) {
            None => case.tell("none"),
            Some(row) => told(case, row, names),
        },
    }
}

/// Tells a row.
fn told(case: &mut Case, row: Row, names: &[Name]) {
    write!(case, "{}/{} ", row.addr.get(), row.mask);
    match names.get(usize::from(row.iface)) {
        None => case.misread(),
        Some(name) => case.tell(name.as_str()),
    }
    if let Some(via) = row.via {
        write!(case, " via {}", via.get());
    }
}

/// Tells the text of a table with the rows of another, where there is room for them.
fn added(case: &mut Case, names: &[Name]) {
    let (text, more) = case.halves(case.rest(), " + ");
    match (table(case, text, names), table(case, more, names)) {
        (Ok(mut table), Ok(more)) => match table.extend(&more) {
            Ok(()) => written(case, &table, names),
            Err(_) => case.tell("full"),
        },
        _ => case.misread(),
    }
}
