//! Requests that no line brings, and rows that no short script leaves.
use crate::ready::{assert_same, example_charter, on_new_desk};
use crate::scripts::{ALPHA, assert_lines};
use addr::{Asn, Day, Holdings, Name, Prefix};
use desk::{Desk, Reply, Request};
use policy::{
    Change, Command, Edit, Granted, HolderRows, ImportRow, Proposed, Refusal, Role, Rule, Scope,
    View, decide, suppose,
};
use sqlite::MemStore;
use std::alloc::Global;
use std::process::Abort;

fn name(rt: &impl Abort, text: &str) -> Name {
    Name::read(text.as_bytes()).expect(rt, "a name")
}

fn prefix(rt: &impl Abort) -> Prefix {
    Prefix::read(b"192.0.2.0/24").expect(rt, "a prefix")
}

fn first_of_march(rt: &impl Abort) -> Day {
    Day::read(b"2026-03-01").expect(rt, "a day")
}

/// An import without rows makes nothing, whoever asks for it.
fn assert_makes_nothing(
    rt: &impl Abort,
    alloc: Global,
    desk: &mut Desk<MemStore>,
    caller: &str,
    holder: &str,
) {
    let request = Request::Command(Command::Import {
        holder: name(rt, holder),
        rows: Vec::new(alloc),
    });
    let reply = desk.handle(first_of_march(rt), &name(rt, caller), &request);
    let makes_nothing = matches!(
        reply,
        Reply::Imported {
            made: 0,
            present: 0
        }
    );
    assert_same(rt, makes_nothing, true, (caller, holder));
}

/// The limits on the number of rows are those of texts alone.
#[test]
fn import_without_rows_asks_no_rule(rt: HostRuntime) {
    let alloc = rt.alloc();
    on_new_desk(&rt, alloc, |desk| {
        assert_lines(
            &rt,
            alloc,
            "import_without_rows_asks_no_rule",
            desk,
            &[ALPHA],
        );
        assert_makes_nothing(&rt, alloc, desk, "ann", "alpha");
        assert_makes_nothing(&rt, alloc, desk, "bob", "alpha");
        assert_makes_nothing(&rt, alloc, desk, "bob", "zeta");
    });
}

fn holdings(rt: &impl Abort, alloc: Global) -> Holdings {
    let mut holdings = Holdings::new(alloc);
    holdings.add(&prefix(rt)).expect(rt, "holdings");
    holdings
}

fn grants(rt: &impl Abort, alloc: Global) -> Vec<Granted> {
    let manager = Granted {
        number: 1,
        caller: name(rt, "ann"),
        role: Role::Manager,
        scope: Scope::All,
        until: first_of_march(rt),
    };
    vec![in alloc; manager].expect(rt, "a grant")
}

/// The holder of 192.0.2.0/24 at which so many authorizations were made, none of them active, with
/// `ann` as its manager.
fn view_after(rt: &impl Abort, alloc: Global, created: u32) -> View {
    let rows = HolderRows {
        holdings: holdings(rt, alloc),
        grants: grants(rt, alloc),
        auths: Vec::new(alloc),
        granted: 1,
        created,
    };
    View {
        holder: Some(rows),
        taken: false,
    }
}

fn row(rt: &impl Abort, asn: u32) -> ImportRow {
    ImportRow {
        asn: Asn(asn),
        prefix: prefix(rt),
        max: 24,
        from: first_of_march(rt),
        until: first_of_march(rt),
    }
}

fn creation(rt: &impl Abort, alloc: Global, asn: u32) -> Proposed {
    Proposed::Create(row(rt, asn).terms(alloc).expect(rt, "terms"))
}

/// The rule and the row that a denial names.
fn denial<T: Drop>(judged: Result<T, Refusal>) -> Option<(Rule, Option<u64>)> {
    match judged {
        Err(Refusal::Denied(rule, row)) => Some((rule, row)),
        _ => None,
    }
}

/// The decision on an import by `ann` where so many authorizations were made.
fn import_after(
    rt: &impl Abort,
    alloc: Global,
    created: u32,
    rows: &[ImportRow],
) -> Result<Change, Refusal> {
    let charter = example_charter(rt, alloc);
    let view = view_after(rt, alloc, created);
    let command = Command::Import {
        holder: name(rt, "alpha"),
        rows: Vec::from_slice(alloc, rows).expect(rt, "rows"),
    };
    let day = first_of_march(rt);
    decide(alloc, &charter, &view, day, &name(rt, "ann"), &command)
}

#[test]
fn import_past_number_999999_is_denied(rt: HostRuntime) {
    let rows = [row(&rt, 1), row(&rt, 2)];
    let second = denial(import_after(&rt, rt.alloc(), 999_998, &rows));
    assert_same(&rt, second, Some((Rule::Room, Some(2))), "row 2");
    let first = denial(import_after(&rt, rt.alloc(), 999_999, &rows));
    assert_same(&rt, first, Some((Rule::Room, Some(1))), "row 1");
}

/// The change makes one authorization, whose number is the last.
fn assert_makes_last(rt: &impl Abort, change: &Change) {
    assert_same(rt, change.imported(), 1, "imported");
    let Change::Holders { first, .. } = change else {
        rt.panic("another change")
    };
    let Edit::Import { auths, created } = &first.edit else {
        rt.panic("another edit")
    };
    assert_same(rt, *created, 999_999, "created");
    let all_last = auths.iter().all(|auth| auth.number == 999_999);
    assert_same(rt, all_last, true, "numbers");
}

#[test]
fn number_999999_is_the_last(rt: HostRuntime) {
    let change = import_after(&rt, rt.alloc(), 999_998, &[row(&rt, 1)]);
    assert_makes_last(&rt, &change.expect(&rt, "a change"));
}

/// What these changes by `ann` would leave where 999,998 authorizations were made.
fn supposed(rt: &impl Abort, alloc: Global, changes: &[Proposed]) -> Result<HolderRows, Refusal> {
    assert!(rt; !changes.is_empty());
    let charter = example_charter(rt, alloc);
    let view = view_after(rt, alloc, 999_998);
    let day = first_of_march(rt);
    suppose(alloc, &charter, &view, day, &name(rt, "ann"), changes)
}

/// A create, its withdrawal and a second create.
fn creation_after_withdrawal(rt: &impl Abort, alloc: Global) -> [Proposed; 3] {
    let first = creation(rt, alloc, 1);
    let second = creation(rt, alloc, 2);
    [first, Proposed::Withdraw(999_999), second]
}

#[test]
fn supposed_create_counts_as_made(rt: HostRuntime) {
    let changes = creation_after_withdrawal(&rt, rt.alloc());
    let third = denial(supposed(&rt, rt.alloc(), &changes));
    assert_same(&rt, third, Some((Rule::Room, Some(3))), "the third");
}

#[test]
fn supposed_create_and_withdrawal_leave_its_number(rt: HostRuntime) {
    let changes = creation_after_withdrawal(&rt, rt.alloc());
    let rows = supposed(&rt, rt.alloc(), &changes[..2]).expect(&rt, "rows");
    assert_same(&rt, rows.auths.len(), 0, "authorizations");
    assert_same(&rt, rows.created, 999_999, "created");
}
