//! The sides of the join that a text asks.
ghost use Rattle.std.specs.Prelude.{◌≡◌, ℕ, true, nat_lt, Ok, Err, List, IsTrue, IfOk, IsErrOf, length, map};
ghost use Rattle.std.specs.List.{list_all};
ghost use Rattle.sr_cell.specs.declared.fault.Fault.{Fault as TheFault};
ghost use Rattle.sr_cell.specs.declared.list.No.TheVariants.{Refused};
ghost use Rattle.sr_cell.specs.declared.table.Table.{Table as TheTable};
ghost use Rattle.sr_grammar.specs.Says.{Says};
ghost use Rattle.sr_grammar.specs.Seen.{statement_seen};
ghost use Rattle.sr_model.specs.Queries.{Query as TheQuery};
ghost use Rattle.sr_query.specs.Bound.{is_table, IsQuery};
ghost use Rattle.sr_resolve.specs.Known.{are_known};
ghost use Rattle.sr_semi.specs.Going.{is_read};
ghost use Rattle.sr_semi.specs.Seen.{left_seen, right_seen, sides_seen};
ghost use Rattle.sr_semi.specs.Sides.{first_join, left_of, right_of, sides_of};
ghost use Rattle.sr_semi.specs.Starting.{as_sql, AreSides, IsNotTwo, IsRefused, IsUnread};
ghost use Rattle.sr_semi.specs.declared.fault.SemiFault.TheVariants.{Sql, NotTwo, Unread};

use crate::conjuncts::conjuncts_on;
use crate::fault::SemiFault;
use crate::reading::unread;
use crate::sides::{LeftSide, RightSide, Sides};
use crate::texts::text_of;
use sr_bind::bind::bind_query;
use sr_cell::fault::Fault;
use sr_cell::list::{Copied, No, NoMemory};
use sr_cell::schema::Schema;
use sr_grammar::statement::Statement;
use sr_query::query::Query;
use sr_sql::read::read;
use std::alloc::Global;

/// A refusal of a text, as one of a join.
fn as_sql(no: No<Fault>) -> No<SemiFault>
    ensures { result ≡ as_sql no }
{
    match no {
        No::Refused(fault) => No::Refused(SemiFault::Sql(fault)),
        No::NoMemory => No::NoMemory,
    }
}

/// The column of a query's first join.
fn joined_column(query: &Query) -> u8
    ensures { (schema : List TheTable) (q : TheQuery) → IsQuery schema query.now q → result ≡ (first_join q).column }
{
    match query.joins.get(0) {
        Some(join) => join.column,
        None => 0,
    }
}

/// The left side of a query of two parts.
fn left_of(
    alloc: Global,
    schema: &Schema,
    tables: &[u8],
    statement: &Statement,
    query: &Query,
) -> Result<LeftSide, NoMemory>
    requires two { length query.now.parts ≡ 2 }
    requires known { IsTrue (are_known schema.now tables.now) }
    requires each { tables.now ≡ map (λ part. part.table) query.now.parts }
    ensures { (q : TheQuery) → IfOk result (λ left. IsQuery schema.now query.now q
        → left_seen left ≡ left_of schema.now (statement_seen statement.now) q) }
{
    let part = &query.parts.as_slice()[0];
    let conjuncts = conjuncts_on(alloc, schema, tables, 0, statement)?;
    let table = &schema.as_slice()[part.table as usize];
    Ok(LeftSide {
        text: text_of(alloc, table, part.need, conjuncts)?,
        need: part.need,
        column: joined_column(query),
    })
}

/// The right side of a query of two parts.
fn right_of(
    alloc: Global,
    schema: &Schema,
    tables: &[u8],
    statement: &Statement,
    query: &Query,
) -> Result<RightSide, NoMemory>
    requires two { length query.now.parts ≡ 2 }
    requires known { IsTrue (are_known schema.now tables.now) }
    requires each { tables.now ≡ map (λ part. part.table) query.now.parts }
    ensures { (q : TheQuery) → IfOk result (λ right. IsQuery schema.now query.now q
        → right_seen right ≡ right_of schema.now (statement_seen statement.now) q) }
{
    let part = &query.parts.as_slice()[1];
    let conjuncts = conjuncts_on(alloc, schema, tables, 1, statement)?;
    let table = schema.as_slice()[part.table as usize].copy(alloc)?;
    Ok(RightSide {
        table,
        need: part.need,
        conjuncts,
        width: part.width,
    })
}

/// The sides of a query of two parts.
fn both(
    alloc: Global,
    schema: &Schema,
    statement: &Statement,
    query: Query,
) -> Result<Sides, NoMemory>
    requires tables { IsTrue (list_all is_table schema.now) }
    requires two { length query.parts ≡ 2 }
    requires within { IsTrue (list_all (λ part. nat_lt part.table (length schema.now)) query.parts) }
    ensures { (q : TheQuery) → IfOk result (λ sides. IsQuery schema.now query q
        → sides_seen sides ≡ sides_of schema.now (statement_seen statement.now) q) }
{
    let parts = query.parts.as_slice();
    let tables = [parts[0].table, parts[1].table];
    let left = left_of(alloc, schema, &tables, statement, &query)?;
    let right = right_of(alloc, schema, &tables, statement, &query)?;
    Ok(Sides {
        left,
        right,
        outputs: query.output,
    })
}

/// The sides of the join that the statement asks, which the text says.
fn sides_in(alloc: Global, schema: &Schema, statement: &Statement) -> Result<Sides, No<SemiFault>>
    requires tables { IsTrue (list_all is_table schema.now) }
    ensures sides { (sql : List ℕ) → Says sql (Ok (statement_seen statement.now)) → IfOk result (λ sides. AreSides schema.now sql (sides_seen sides)) }
    ensures sql { (sql : List ℕ) (fault : TheFault) → Says sql (Ok (statement_seen statement.now))
        → IsErrOf result (Refused (Sql fault)) → IsRefused schema.now sql fault }
    ensures not_two { (sql : List ℕ) (tables : ℕ) → Says sql (Ok (statement_seen statement.now))
        → IsErrOf result (Refused (NotTwo tables)) → IsNotTwo schema.now sql tables }
    ensures read { (fault : TheFault) → IsErrOf result (Refused (Unread fault)) → ⊥ }
{
    let query = match bind_query(alloc, schema, statement) {
        Ok(query) => query,
        Err(no) => return Err(as_sql(no)),
    };
    let tables = query.parts.len();
    if tables != 2 {
        return Err(No::Refused(SemiFault::NotTwo {
            tables: tables as u32,
        }));
    }
    Ok(both(alloc, schema, statement, query)?)
}

/// The sides, if the left text can be read.
fn if_read(alloc: Global, sides: Sides) -> Result<Sides, No<SemiFault>>
    ensures same { IfOk result (λ same. same ≡ sides) }
    ensures read { IfOk result (λ same. is_read same.left.text ≡ true) }
    ensures unread { (fault : TheFault) → IsErrOf result (Refused (Unread fault)) → Says sides.left.text (Err fault) }
    ensures sql { (fault : TheFault) → IsErrOf result (Refused (Sql fault)) → ⊥ }
    ensures two { (tables : ℕ) → IsErrOf result (Refused (NotTwo tables)) → ⊥ }
{
    match unread(alloc, sides.left.text.as_str())? {
        None => Ok(sides),
        Some(fault) => Err(No::Refused(SemiFault::Unread(fault))),
    }
}

/// The sides of the join that a text asks, or why it asks none.
pub fn sides_of(alloc: Global, schema: &Schema, sql: &str) -> Result<Sides, No<SemiFault>>
    requires tables { IsTrue (list_all is_table schema.now) }
    ensures sides { IfOk result (λ sides. AreSides schema.now sql.now (sides_seen sides)) }
    ensures read { IfOk result (λ sides. is_read sides.left.text ≡ true) }
    ensures sql { (fault : TheFault) → IsErrOf result (Refused (Sql fault)) → IsRefused schema.now sql.now fault }
    ensures not_two { (tables : ℕ) → IsErrOf result (Refused (NotTwo tables)) → IsNotTwo schema.now sql.now tables }
    ensures unread { (fault : TheFault) → IsErrOf result (Refused (Unread fault)) → IsUnread schema.now sql.now fault }
{
    let statement = match read(alloc, sql) {
        Ok(statement) => statement,
        Err(no) => return Err(as_sql(no)),
    };
    let sides = sides_in(alloc, schema, &statement);
    drop(statement);
    match sides {
        Ok(sides) => if_read(alloc, sides),
        Err(no) => Err(no),
    }
}
