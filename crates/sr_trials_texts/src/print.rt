//! What texts say, by the printed forms that were written by hand.
use sr_cell::fault::{Fault, Why};
use sr_cell::list::{No, NoMemory};
use sr_cell::text::Text;
use sr_grammar::statement::Statement;
use sr_print::print::print;
use sr_sql::read::read;
use std::alloc::Global;

fn printed(alloc: Global, statement: Statement) -> Result<Text, NoMemory> {
    print(alloc, &statement)
}

fn says(printed: Text, wanted: &str) -> bool {
    printed.as_str() == wanted
}

/// Whether the text says a statement with this printed form.
fn is_printed(alloc: Global, text: &str, wanted: &str) -> bool {
    match read(alloc, text) {
        Ok(statement) => match printed(alloc, statement) {
            Ok(printed) => says(printed, wanted),
            Err(_) => false,
        },
        Err(_) => false,
    }
}

static TEXTS: [(&str, &str); 13] = [
    (
        "select ID from Emp where NOT (age!=3);",
        "SELECT id FROM emp WHERE NOT age <> 3",
    ),
    (
        "create table T (ID int check (id between -5 and 09) not null,N integer primary key,s text);",
        "CREATE TABLE t (id INT CHECK (id BETWEEN -5 AND 9), n INT PRIMARY KEY, s TEXT)",
    ),
    (
        "CREATE TABLE t(a INT CHECK(a BETWEEN -1099511627776 AND 1099511627775)PRIMARY KEY)",
        "CREATE TABLE t (a INT PRIMARY KEY)",
    ),
    (
        "SELECT Emp . ID,name FROM emp INNER JOIN dept ON emp.dept=dept.id WHERE (name NOT LIKE 'o''%') OR age BETWEEN - 1 AND 2",
        "SELECT emp.id, name FROM emp JOIN dept ON emp.dept = dept.id WHERE name NOT LIKE 'o''%' OR age BETWEEN -1 AND 2",
    ),
    (
        "insert into t(id,s) values(-012,'it''s'),(-0,'')",
        "INSERT INTO t (id, s) VALUES (-12, 'it''s'), (0, '')",
    ),
    (
        "update t set a=1,b='x' where c not in(1,-2)",
        "UPDATE t SET a = 1, b = 'x' WHERE c NOT IN (1, -2)",
    ),
    (
        "delete from t where(((a=1)or b='it''s'))and c like'x%'",
        "DELETE FROM t WHERE (a = 1 OR b = 'it''s') AND c LIKE 'x%'",
    ),
    (
        "delete from t where a=1 and(b<2 and c>=3)or d<=4 or(e>5 or f<>6)",
        "DELETE FROM t WHERE a = 1 AND (b < 2 AND c >= 3) OR d <= 4 OR (e > 5 OR f <> 6)",
    ),
    (
        "delete from t where not(a=1 and b=2)and not not c not between 'x' and 'y'",
        "DELETE FROM t WHERE NOT (a = 1 AND b = 2) AND NOT NOT c NOT BETWEEN 'x' AND 'y'",
    ),
    (
        "create table n(id int not null primary key,a int check(a between 0 and 9)null,b text null)",
        "CREATE TABLE n (id INT PRIMARY KEY, a INT NULL CHECK (a BETWEEN 0 AND 9), b TEXT NULL)",
    ),
    (
        "select id from n where not a is null or a is not null",
        "SELECT id FROM n WHERE NOT a IS NULL OR a IS NOT NULL",
    ),
    (
        "insert into n values(1,null,'x'),(2,3,null)",
        "INSERT INTO n VALUES (1, NULL, 'x'), (2, 3, NULL)",
    ),
    (
        "update n set a=null where b is null",
        "UPDATE n SET a = NULL WHERE b IS NULL",
    ),
];

#[test]
fn statements_have_one_printed_form(rt: HostRuntime) {
    let alloc = rt.alloc();
    for (text, printed) in &TEXTS {
        assert!(rt; is_printed(alloc, text, printed));
        assert!(rt; is_printed(alloc, printed, printed));
    }
}

/// Whether the text is refused for this, at this place.
fn is_refused(alloc: Global, text: &str, why: Why, at: u32) -> bool {
    match read(alloc, text) {
        Err(No::Refused(fault)) => fault == Fault { why, at },
        _ => false,
    }
}

static FAULTS: [(&str, Why, u32); 6] = [
    (
        "CREATE TABLE n (id INT PRIMARY KEY, a INT NOT NULL NULL)",
        Why::Grammar,
        51,
    ),
    ("SELECT id FROM n WHERE a = NULL", Why::Grammar, 27),
    ("SELECT id FROM n WHERE a IN (1, NULL)", Why::Grammar, 32),
    ("SELECT id FROM is", Why::Grammar, 15),
    (
        "CREATE TABLE n (id INT NULL PRIMARY KEY, a INT PRIMARY KEY)",
        Why::BadNull,
        0,
    ),
    (
        "CREATE TABLE n (id INT PRIMARY KEY NULL, a TEXT CHECK (a BETWEEN 0 AND 9))",
        Why::BadDomain,
        0,
    ),
];

#[test]
fn null_has_its_places(rt: HostRuntime) {
    let alloc = rt.alloc();
    for (text, why, at) in &FAULTS {
        assert!(rt; is_refused(alloc, text, *why, *at));
    }
}
