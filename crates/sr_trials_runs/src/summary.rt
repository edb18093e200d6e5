//! How lines are counted, by value.
use sr_summary::count::{count_lines, count_second};

#[test]
fn lines_are_counted(rt: HostRuntime) {
    let text = b"2 row 1, 35\n3 query 1 asked 1\n4 row\n5 drop 1 row\n6 rows row\nrow\n";
    assert!(rt; count_lines(text) == 6);
    assert!(rt; count_second(b"row", text) == 2);
    assert!(rt; count_second(b"query", text) == 1);
}
