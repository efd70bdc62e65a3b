//! How tests go through a table: to its end, with a word on each wrong row.
#![tactic(auto)]

/// Tries each row, names those that are wrong on standard error, and then fails if there are any:
/// `assert_rows!(rt; (text, day) in DAYS => is_read(text, *day); "{text}")`. Where what is found and what is wanted
/// stand apart, as in `=> parse(text), Some(*day); "{text}"`, both are shown. Tables in tables: `a in AS, b in a => ..`.
#[macro_export]
macro_rules! assert_rows {
    ($rt:expr; $($row:pat in $rows:expr),+ => $is_right:expr; $($name:tt)+) => {{
        let mut all_right = true;
        $crate::each_row!($($row in $rows),+ => {
            if !$is_right {
                let _ = std::io::Eprint::eprintln(&$rt, format_args!($($name)+));
                all_right = false;
            }
        });
        assert!($rt; all_right, "wrong rows");
    }};
    ($rt:expr; $($row:pat in $rows:expr),+ => $found:expr, $wanted:expr; $($name:tt)+) => {{
        let mut all_right = true;
        $crate::each_row!($($row in $rows),+ => {
            match (&$found, &$wanted) {
                (found, wanted) => {
                    if !(*found == *wanted) {
                        let name = format_args!($($name)+);
                        let _ = std::io::Eprint::eprintln(&$rt, format_args!("{name}: {found:?}, not {wanted:?}"));
                        all_right = false;
                    }
                }
            }
        });
        assert!($rt; all_right, "wrong rows");
    }};
}

/// The loops of `assert_rows`.
#[macro_export]
macro_rules! each_row {
    ($row:pat in $rows:expr => $body:block) => {
        for $row in $rows $body
    };
    ($row:pat in $rows:expr, $($more:tt)+) => {
        for $row in $rows {
            $crate::each_row!($($more)+);
        }
    };
}
