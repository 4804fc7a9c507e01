//! Sources that break a rule of types, each with its first fault: a test for each group of rules. All stand on one line.

use super::sources::refusal;
use st_events::Site;
use st_source::SourceError;
use st_types::{TypeError, Wanted};
use std::alloc::Global;
use std::test::Fail;

/// What a row's source breaks first.
#[derive(Clone, Copy, Debug)]
enum Fault {
    UnknownName,
    Twice,
    /// The kind that is wanted, and the one that is found.
    Mismatch(Wanted, Wanted),
    WrongCount,
    NotPure,
    NotHere,
}

impl Fault {
    /// The error that tells it.
    fn at(self, at: Site) -> SourceError {
        SourceError::Types(match self {
            Fault::UnknownName => TypeError::UnknownName { at },
            Fault::Twice => TypeError::Twice { at },
            Fault::Mismatch(wanted, found) => TypeError::Mismatch { at, wanted, found },
            Fault::WrongCount => TypeError::WrongCount { at },
            Fault::NotPure => TypeError::NotPure { at },
            Fault::NotHere => TypeError::NotHere { at },
        })
    }
}

const UNKNOWN: Fault = Fault::UnknownName;

const TWICE: Fault = Fault::Twice;

const WRONG_COUNT: Fault = Fault::WrongCount;

const NOT_PURE: Fault = Fault::NotPure;

const NOT_HERE: Fault = Fault::NotHere;

/// A bool where a number is wanted; the names below read alike.
const BOOL_FOR_INT: Fault = Fault::Mismatch(Wanted::Int, Wanted::Bool);

const NULL_FOR_INT: Fault = Fault::Mismatch(Wanted::Int, Wanted::Null);

const INT_FOR_BOOL: Fault = Fault::Mismatch(Wanted::Bool, Wanted::Int);

const NULL_FOR_BOOL: Fault = Fault::Mismatch(Wanted::Bool, Wanted::Null);

const INT_FOR_REF: Fault = Fault::Mismatch(Wanted::AnyRef, Wanted::Int);

/// Of the classes of a source A is the first, and B the second.
const INT_FOR_A: Fault = Fault::Mismatch(Wanted::Ref(1), Wanted::Int);

const B_FOR_A: Fault = Fault::Mismatch(Wanted::Ref(1), Wanted::Ref(2));

const A_FOR_B: Fault = Fault::Mismatch(Wanted::Ref(2), Wanted::Ref(1));

/// A source, the column of its first fault, and the fault.
type Row<'a> = (&'a [u8], u32, Fault);

/// The place of a row, from 0, and why its source is refused, if it is.
type Other = (usize, Option<SourceError>);

/// The first row whose source is refused for another reason than is wanted, or not at all.
fn first_other(alloc: Global, rows: &[Row<'_>]) -> Option<Other> {
    for place in 0..rows.len() {
        let (text, column, fault) = rows[place];
        let wanted = fault.at(Site { line: 1, column });
        let found = refusal(alloc, text);
        if found != Some(wanted) {
            return Some((place, found));
        }
    }
    None
}

#[test]
fn a_type_or_new_names_a_class_that_is_declared(rt: HostRuntime) -> Result<(), Fail> {
    let rows: [Row<'_>; 7] = [
        (b"class A { v: B; }", 14, UNKNOWN),
        (b"shared { x: B; }", 13, UNKNOWN),
        (b"pred p(a: B): bool = true;", 11, UNKNOWN),
        (b"pred p(): B = null;", 11, UNKNOWN),
        (b"proc p(a: B) { }", 11, UNKNOWN),
        (b"thread t { var a: B = null; }", 19, UNKNOWN),
        (b"thread t { var a: int = new B; }", 25, UNKNOWN),
    ];
    assert_eq!(rt; first_other(rt.alloc(), &rows), None);
    Ok(())
}

#[test]
fn a_local_is_named_behind_its_var_and_in_its_block(rt: HostRuntime) -> Result<(), Fail> {
    let rows: [Row<'_>; 6] = [
        (b"thread t { x = 1; }", 12, UNKNOWN),
        (b"thread t { var x: int = y; }", 25, UNKNOWN),
        (b"thread t { var x: int = x; }", 25, UNKNOWN),
        (b"thread t { x = 1; var x: int = 2; }", 12, UNKNOWN),
        (
            b"thread t { if (true) { var x: int = 1; x = 2; } x = 3; }",
            49,
            UNKNOWN,
        ),
        (
            b"thread t { while (true) { var x: int = 1; } check x == 1; }",
            51,
            UNKNOWN,
        ),
    ];
    assert_eq!(rt; first_other(rt.alloc(), &rows), None);
    Ok(())
}

#[test]
fn a_field_is_one_of_the_class_of_its_object(rt: HostRuntime) -> Result<(), Fail> {
    let rows: [Row<'_>; 5] = [
        (
            b"class A { v: int; n: A; } class B { m: B; } thread t { var b: B = null; b.v = 1; }",
            74,
            UNKNOWN,
        ),
        (b"thread t { shared.x = 1; }", 18, UNKNOWN),
        (
            b"thread t { var x: int = 1; var y: int = x.v; }",
            41,
            INT_FOR_REF,
        ),
        (
            b"thread t { var y: int = null.v; }",
            25,
            Fault::Mismatch(Wanted::AnyRef, Wanted::Null),
        ),
        (
            b"class A { v: int; n: A; } class B { m: B; } shared { k: int; a: A; } thread t { var y: int = shared.a.n.v.v; }",
            104,
            INT_FOR_REF,
        ),
    ];
    assert_eq!(rt; first_other(rt.alloc(), &rows), None);
    Ok(())
}

#[test]
fn a_call_names_what_may_be_called_in_its_place(rt: HostRuntime) -> Result<(), Fail> {
    let rows: [Row<'_>; 9] = [
        // In a predicate.
        (b"pred q(): bool = p(); proc p() { }", 18, NOT_PURE),
        // In a check.
        (b"thread t { check p(); }", 18, UNKNOWN),
        (b"proc p() { } thread t { check p(); }", 31, NOT_PURE),
        (
            b"pred q(): bool = true; proc p() { } thread t { check q() && p(); }",
            61,
            NOT_PURE,
        ),
        // In another expression.
        (b"thread t { var x: bool = p(); }", 26, UNKNOWN),
        (
            b"pred p(): bool = true; thread t { var x: bool = p(); }",
            49,
            NOT_HERE,
        ),
        (
            b"proc p() { } thread t { var x: bool = p(); }",
            39,
            NOT_HERE,
        ),
        // As a statement.
        (b"thread t { p(); }", 12, UNKNOWN),
        (b"pred p(): bool = true; thread t { p(); }", 35, NOT_HERE),
    ];
    assert_eq!(rt; first_other(rt.alloc(), &rows), None);
    Ok(())
}

#[test]
fn arguments_fit_the_parameters(rt: HostRuntime) -> Result<(), Fail> {
    let rows: [Row<'_>; 6] = [
        (
            b"pred p(a: int): bool = true; pred q(): bool = p();",
            47,
            WRONG_COUNT,
        ),
        // Their count is told before their kinds.
        (
            b"pred p(a: int): bool = true; pred q(): bool = p(true, 1);",
            47,
            WRONG_COUNT,
        ),
        (
            b"pred p(a: int): bool = true; pred q(): bool = p(true);",
            49,
            BOOL_FOR_INT,
        ),
        (
            b"class A { v: int; n: A; } class B { m: B; } pred p(a: A): bool = true; thread t { var b: B = null; check p(b); }",
            108,
            B_FOR_A,
        ),
        (
            b"proc p(a: int) { } thread t { p(true, 1); }",
            31,
            WRONG_COUNT,
        ),
        (
            b"proc p(a: int) { } thread t { p(null); }",
            33,
            NULL_FOR_INT,
        ),
    ];
    assert_eq!(rt; first_other(rt.alloc(), &rows), None);
    Ok(())
}

#[test]
fn declarations_and_fields_have_distinct_names(rt: HostRuntime) -> Result<(), Fail> {
    let rows: [Row<'_>; 7] = [
        (b"class A { } class A { }", 19, TWICE),
        (b"class A { v: int; v: bool; }", 19, TWICE),
        (b"shared { v: int; v: bool; }", 18, TWICE),
        (b"pred p(): bool = true; pred p(): bool = true;", 29, TWICE),
        (b"pred p(): bool = true; proc p() { }", 29, TWICE),
        (b"proc p() { } proc p() { }", 19, TWICE),
        (b"thread t { } thread t { }", 21, TWICE),
    ];
    assert_eq!(rt; first_other(rt.alloc(), &rows), None);
    Ok(())
}

#[test]
fn parameters_and_vars_of_a_body_have_distinct_names(rt: HostRuntime) -> Result<(), Fail> {
    let rows: [Row<'_>; 4] = [
        (b"pred p(a: int, a: int): bool = true;", 16, TWICE),
        (
            b"thread t { var a: int = 1; var a: bool = true; }",
            28,
            TWICE,
        ),
        (
            b"thread t { if (true) { var a: int = 1; } else { var a: int = 2; } }",
            49,
            TWICE,
        ),
        (b"proc p(a: int) { var a: int = 1; }", 18, TWICE),
    ];
    assert_eq!(rt; first_other(rt.alloc(), &rows), None);
    Ok(())
}

#[test]
fn arithmetic_and_order_want_numbers(rt: HostRuntime) -> Result<(), Fail> {
    let rows: [Row<'_>; 4] = [
        (b"thread t { var x: int = true + 1; }", 25, BOOL_FOR_INT),
        (b"thread t { var x: int = 1 * null; }", 29, NULL_FOR_INT),
        (b"thread t { var x: int = -false; }", 26, BOOL_FOR_INT),
        (b"thread t { check 1 < true; }", 22, BOOL_FOR_INT),
    ];
    assert_eq!(rt; first_other(rt.alloc(), &rows), None);
    Ok(())
}

#[test]
fn logic_wants_bools(rt: HostRuntime) -> Result<(), Fail> {
    let rows: [Row<'_>; 4] = [
        (b"thread t { check !1; }", 19, INT_FOR_BOOL),
        (b"thread t { check 1 && true; }", 18, INT_FOR_BOOL),
        (b"thread t { check true || null; }", 26, NULL_FOR_BOOL),
        (b"thread t { check true && (1); }", 26, INT_FOR_BOOL),
    ];
    assert_eq!(rt; first_other(rt.alloc(), &rows), None);
    Ok(())
}

#[test]
fn both_sides_of_an_equality_have_one_kind(rt: HostRuntime) -> Result<(), Fail> {
    let rows: [Row<'_>; 4] = [
        (b"thread t { check 1 == true; }", 23, BOOL_FOR_INT),
        (b"thread t { check 1 != null; }", 23, NULL_FOR_INT),
        (b"thread t { check null == 1; }", 26, INT_FOR_REF),
        (
            b"class A { v: int; n: A; } class B { m: B; } pred p(a: A, b: B): bool = a == b;",
            77,
            B_FOR_A,
        ),
    ];
    assert_eq!(rt; first_other(rt.alloc(), &rows), None);
    Ok(())
}

#[test]
fn a_choice_tests_a_bool_and_its_branches_have_one_kind(rt: HostRuntime) -> Result<(), Fail> {
    let rows: [Row<'_>; 6] = [
        (b"thread t { var x: int = 1 ? 2 : 3; }", 25, INT_FOR_BOOL),
        (
            b"thread t { var x: int = true ? 1 : true; }",
            36,
            BOOL_FOR_INT,
        ),
        (
            b"thread t { var x: int = true ? 1 : null; }",
            36,
            NULL_FOR_INT,
        ),
        (
            b"thread t { var x: int = true ? null : 1; }",
            39,
            INT_FOR_REF,
        ),
        // The kind is that of the branch that is not null.
        (
            b"class A { v: int; n: A; } class B { m: B; } pred p(a: A): B = true ? null : a;",
            68,
            A_FOR_B,
        ),
        (
            b"class A { v: int; n: A; } class B { m: B; } pred p(a: A): B = true ? a : null;",
            68,
            A_FOR_B,
        ),
    ];
    assert_eq!(rt; first_other(rt.alloc(), &rows), None);
    Ok(())
}

#[test]
fn conditions_are_bools(rt: HostRuntime) -> Result<(), Fail> {
    let rows: [Row<'_>; 4] = [
        (b"thread t { if (1) { } }", 16, INT_FOR_BOOL),
        (b"thread t { while (null) { } }", 19, NULL_FOR_BOOL),
        (b"thread t { check 1; }", 18, INT_FOR_BOOL),
        (b"thread t { check (1 + 2) + 3; }", 26, INT_FOR_BOOL),
    ];
    assert_eq!(rt; first_other(rt.alloc(), &rows), None);
    Ok(())
}

#[test]
fn a_value_has_the_declared_kind(rt: HostRuntime) -> Result<(), Fail> {
    let rows: [Row<'_>; 7] = [
        (b"thread t { var x: int = true; }", 25, BOOL_FOR_INT),
        (b"thread t { var x: int = 1; x = false; }", 32, BOOL_FOR_INT),
        (
            b"class A { v: int; n: A; } class B { m: B; } thread t { var x: int = null; }",
            69,
            NULL_FOR_INT,
        ),
        (
            b"class A { v: int; n: A; } class B { m: B; } thread t { var a: A = new B; }",
            67,
            B_FOR_A,
        ),
        (
            b"shared { k: int;  } thread t { shared.k = true; }",
            43,
            BOOL_FOR_INT,
        ),
        (
            b"class A { v: int; n: A; } class B { m: B; } thread t { var a: A = new A; a.n = 1; }",
            80,
            INT_FOR_A,
        ),
        (b"pred p(): bool = 1;", 18, INT_FOR_BOOL),
    ];
    assert_eq!(rt; first_other(rt.alloc(), &rows), None);
    Ok(())
}

#[test]
fn cas_takes_values_of_its_place_and_is_a_bool(rt: HostRuntime) -> Result<(), Fail> {
    let rows: [Row<'_>; 5] = [
        (
            b"shared { f: bool; } thread t { var d: bool = cas(shared.f, 0, true); }",
            60,
            INT_FOR_BOOL,
        ),
        (
            b"shared { k: int; } thread t { var d: bool = cas(shared.k, true, 1); }",
            59,
            BOOL_FOR_INT,
        ),
        (
            b"shared { k: int; } thread t { var d: bool = cas(shared.k, 1, null); }",
            62,
            NULL_FOR_INT,
        ),
        (
            b"class A { v: int; n: A; } class B { m: B; } shared { a: A; } thread t { var d: bool = cas(shared.a, null, 1); }",
            107,
            INT_FOR_A,
        ),
        (
            b"shared { k: int; } thread t { var d: int = cas(shared.k, 1, 2); }",
            44,
            BOOL_FOR_INT,
        ),
    ];
    assert_eq!(rt; first_other(rt.alloc(), &rows), None);
    Ok(())
}

#[test]
fn the_first_fault_in_source_order_is_told(rt: HostRuntime) -> Result<(), Fail> {
    let rows: [Row<'_>; 9] = [
        // The head of a predicate, and not its calls before it.
        (
            b"pred q(): bool = p(null) && p(null); pred p(a: B): bool = true;",
            48,
            UNKNOWN,
        ),
        // The arguments before their count.
        (
            b"pred p(a: int): bool = true; pred q(): bool = p(1, x);",
            52,
            UNKNOWN,
        ),
        // The arguments before the name of what is called.
        (b"pred q(): bool = p(x);", 20, UNKNOWN),
        // The left operand before the sum.
        (
            b"thread t { var x: int = y + true; x = false; }",
            25,
            UNKNOWN,
        ),
        // Both operands before what the sum asks; of two wrong kinds the left one.
        (b"thread t { var x: int = true + y; }", 32, UNKNOWN),
        (b"thread t { var x: int = true + null; }", 25, BOOL_FOR_INT),
        // The name of a field before its type.
        (b"class A { v: int; v: B; }", 19, TWICE),
        // A class before the shared variables.
        (b"class A { v: C; } shared { x: B; }", 14, UNKNOWN),
        // The target before the value.
        (b"thread t { x = true + 1; }", 12, UNKNOWN),
    ];
    assert_eq!(rt; first_other(rt.alloc(), &rows), None);
    Ok(())
}
