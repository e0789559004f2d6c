// What no clause says: that rows are found, for the keys that the language gives them.
use case_tables::{BOOL, CaseRow, INT, Table, marks, operators};

#[test]
fn each_operator_has_a_row(rt: HostRuntime) {
    let table = operators();
    for key in 1..18 {
        let found = table.find(key);
        assert_eq!(rt; found.map(|row| row.key), Some(key));
    }
    assert_eq!(rt; table.find(0), None);
    assert_eq!(rt; table.find(18), None);
}

#[test]
fn marks_write_operators(rt: HostRuntime) {
    for (mark, number, key) in [
        ("(", 1, 0),
        ("=", 8, 0),
        ("/", 14, 0),
        ("//", 15, 4),
        ("<=", 18, 8),
        ("==", 21, 11),
        ("//=", 26, 4),
        ("%=", 27, 5),
    ] {
        let found = marks().find(number);
        assert_eq!(rt; found.map(|row| row.out), Some(key), "{mark}");
    }
    assert_eq!(rt; marks().find(28), None);
}

#[test]
fn two_rows_with_one_key_are_no_table(rt: HostRuntime) {
    let row = CaseRow {
        key: 3,
        left: INT,
        right: INT,
        out: INT,
    };
    let other = CaseRow { left: BOOL, ..row };
    assert!(rt; Table::new([row, other]).is_none());
    let apart = Table::new([row, CaseRow { key: 4, ..row }]);
    assert_eq!(rt;
        apart.and_then(|table| table.find(4)).map(|row| row.left),
        Some(INT)
    );
}
