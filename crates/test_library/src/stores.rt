//! The store: what was applied is loaded, and what breaks a key is refused.
use crate::databases::{database, opened};
use crate::example_database::TABLES;
use crate::parsing::{parse_auth, parse_day, parse_prefix, split_word};
use crate::rows::Row;
use crate::slurm_sample::SAMPLE;
use crate::tables::{assert_output, assert_same, rows_of};
use addr::{Asn, Day, Holdings, Name, Span};
use policy::{
    Auth, AuthTerms, Change, Charter, Command, Edit, Granted, HolderChange, HolderRows, Role,
    Scope, View, decide,
};
use slurm::{Filter, NamedSlurm, Slurm, SlurmSet};
use sqlite::{Connection, MemStore};
use std::alloc::Global;
use std::process::Abort;
use store::{Loaded, Store, StoreFault};

type Desk = Store<MemStore>;

/// The authorizations of `alpha` by maxLength.
const TO_23: &str = "AS64496 192.0.2.0/24 23 2026-03-01 2026-03-01";

const TO_24: &str = "AS64496 192.0.2.0/24 24 2026-03-01 2026-03-01";

const TO_25: &str = "AS64496 192.0.2.0/24 25 2026-03-01 2026-03-01";

fn name(rt: &impl Abort, text: &str) -> Name {
    Name::read(text.as_bytes()).expect(rt, "a name")
}

fn first_of_march(rt: &impl Abort) -> Day {
    parse_day(rt, "2026-03-01")
}

/// A charter of one operator and one prefix in the pool.
fn charter(rt: &impl Abort, alloc: Global) -> Charter {
    let operators = vec![in alloc; name(rt, "reg")].expect(rt, "operators");
    let pool = vec![in alloc; parse_prefix(rt, "192.0.0.0/16")].expect(rt, "a pool");
    Charter::make(operators, pool).expect(rt, "a charter")
}

/// Lends a store that has the holder `alpha`. What owns a store is slow to prove, so the tests borrow
/// one.
fn on_holder<T, F: FnOnce(&mut Desk) -> T>(rt: &impl Abort, alloc: Global, ask: F) -> T
    requires { F.IsAlwaysCallable ask }
{
    let mut store = Store::open_memory(alloc, &charter(rt, alloc)).expect(rt, "a store");
    apply(rt, &mut store, Edit::Register);
    ask(&mut store)
}

/// Changes the rows of `alpha`.
fn change(rt: &impl Abort, store: &mut Desk, edit: Edit) -> Result<(), StoreFault> {
    let holder = name(rt, "alpha");
    let change = Change::Holders {
        first: HolderChange { holder, edit },
        second: None,
    };
    store.apply(&change)
}

fn apply(rt: &impl Abort, store: &mut Desk, edit: Edit) {
    change(rt, store, edit).expect(rt, "a change");
}

fn create(rt: &impl Abort, alloc: Global, store: &mut Desk, number: u32, text: &str) {
    let auth = parse_auth(rt, alloc, number, text);
    apply(rt, store, Edit::Create(auth));
}

/// Whether both lists have the same authorizations, in one order.
fn are_same(auths: &[Auth], others: &[Auth]) -> bool {
    auths.len() == others.len()
        && auths.iter().zip(others).all(|(auth, other)| {
            auth.number == other.number
                && auth.asn == other.asn
                && auth.entries.as_slice() == other.entries.as_slice()
                && auth.from == other.from
                && auth.until == other.until
        })
}

/// So many authorizations of one prefix, each of an AS of its own, where four were made before.
fn next_authorizations(rt: &impl Abort, alloc: Global, count: u32) -> Vec<Auth> {
    let mut auths = Vec::new(alloc);
    for number in 5..5u32.saturating_add(count) {
        let mut auth = parse_auth(rt, alloc, number, TO_24);
        auth.asn = Asn(number);
        auths.push(auth).expect(rt, "an authorization");
    }
    auths
}

fn grant(rt: &impl Abort) -> Granted {
    Granted {
        number: 1,
        caller: name(rt, "ann"),
        role: Role::Manager,
        scope: Scope::Only(parse_prefix(rt, "192.0.2.0/24")),
        until: first_of_march(rt),
    }
}

/// `alpha` gets runs in place of others.
fn replace(rt: &impl Abort, alloc: Global, store: &mut Desk, removed: &[Span], added: &[Span]) {
    let edit = Edit::Hold {
        removed: Vec::from_slice(alloc, removed).expect(rt, "runs"),
        added: Vec::from_slice(alloc, added).expect(rt, "runs"),
        ended: Vec::new(alloc),
    };
    apply(rt, store, edit);
}

/// `alpha` gets the run of 192.0.2.0/24.
fn hold(rt: &impl Abort, alloc: Global, store: &mut Desk) {
    let run = parse_prefix(rt, "192.0.2.0/24").span();
    replace(rt, alloc, store, &[], &[run]);
}

#[test]
fn each_edit_runs_in_memory(rt: HostRuntime) {
    on_holder(&rt, rt.alloc(), |store| {
        add_rows(&rt, rt.alloc(), store);
        let auth = parse_auth(&rt, rt.alloc(), 1, TO_24);
        apply(&rt, store, Edit::Amend(auth));
        apply(&rt, store, Edit::Withdraw(1));
        apply(&rt, store, Edit::Revoke(1));
    });
}

/// `alpha` holds its run and has its grant and its authorization.
fn add_rows(rt: &impl Abort, alloc: Global, store: &mut Desk) {
    hold(rt, alloc, store);
    apply(rt, store, Edit::Grant(grant(rt)));
    create(rt, alloc, store, 1, TO_24);
}

fn assert_rows(rt: &impl Abort, alloc: Global, rows: &HolderRows) {
    assert!(rt; rows.holdings.spans() == [parse_prefix(rt, "192.0.2.0/24").span()].as_slice());
    assert!(rt; rows.grants.as_slice() == [grant(rt)].as_slice());
    assert_same(rt, (rows.granted, rows.created), (1, 1), "counters");
    assert!(rt; are_same(&rows.auths, &[parse_auth(rt, alloc, 1, TO_24)]));
}

#[test]
fn what_was_applied_is_loaded(rt: HostRuntime) {
    on_holder(&rt, rt.alloc(), |store| {
        add_rows(&rt, rt.alloc(), store);
        assert_rows(&rt, rt.alloc(), &loaded(&rt, rt.alloc(), store));
    });
}

#[test]
fn what_was_applied_is_in_force(rt: HostRuntime) {
    on_holder(&rt, rt.alloc(), |store| {
        add_rows(&rt, rt.alloc(), store);
        assert_same(&rt, store.charter().operators().len(), 1, "operators");
        let both = store.load_two(rt.alloc(), &name(&rt, "alpha"), &name(&rt, "beta"));
        assert!(rt; matches!(both, Ok((Some(_), None))));
        let vrps = store
            .all_auths_on(rt.alloc(), first_of_march(&rt))
            .expect(&rt, "VRPs");
        assert_same(&rt, vrps.len(), 1, "VRPs");
    });
}

/// So many authorizations are imported where four were made before.
fn import(rt: &impl Abort, alloc: Global, store: &mut Desk, count: u32) {
    let auths = next_authorizations(rt, alloc, count);
    let created = count.saturating_add(4);
    apply(rt, store, Edit::Import { auths, created });
}

/// They are all loaded.
fn assert_imports(rt: &impl Abort, alloc: Global, count: u32) {
    on_holder(rt, alloc, |store| {
        import(rt, alloc, store, count);
        let rows = loaded(rt, alloc, store);
        assert_same(rt, rows.created, count.saturating_add(4), count);
        assert!(rt; are_same(&rows.auths, &next_authorizations(rt, alloc, count)));
    });
}

#[test]
fn imported_authorizations_are_loaded(rt: HostRuntime) {
    for count in [0, 1, 3] {
        assert_imports(&rt, rt.alloc(), count);
    }
}

/// Prefixes, and whether each overlaps what `alpha` has once 192.0.2.0/26 is taken away.
const OVERLAPS: [(&str, bool); 4] = [
    ("192.0.2.0/26", false),
    ("192.0.2.0/25", true),
    ("192.0.2.0/24", true),
    ("::/0", false),
];

/// The runs of 192.0.2.0/24 except 192.0.2.0/26, in place of all of it.
fn reclaim(rt: &impl Abort, alloc: Global, store: &mut Desk) {
    let whole = parse_prefix(rt, "192.0.2.0/24");
    let mut holdings = Holdings::new(alloc);
    holdings.add(&whole).expect(rt, "holdings");
    let part = parse_prefix(rt, "192.0.2.0/26");
    holdings.take(&part).expect(rt, "holdings");
    replace(rt, alloc, store, &[whole.span()], holdings.spans());
}

/// What is loaded for a command.
fn loaded_for(rt: &impl Abort, alloc: Global, store: &mut Desk, command: &Command) -> Loaded {
    store.load_for(alloc, command).expect(rt, "loaded rows")
}

fn assert_overlaps(rt: &impl Abort, alloc: Global, store: &mut Desk, text: &str, overlaps: bool) {
    let prefix = parse_prefix(rt, text);
    let found = store.overlapping(&prefix).expect(rt, text);
    assert_same(rt, found, overlaps, text);
    let holder = name(rt, "alpha");
    let loaded = loaded_for(rt, alloc, store, &Command::Delegate { holder, prefix });
    assert_same(rt, loaded.answers.taken, overlaps, text);
}

#[test]
fn overlapping_after_reclaim(rt: HostRuntime) {
    on_holder(&rt, rt.alloc(), |store| {
        hold(&rt, rt.alloc(), store);
        reclaim(&rt, rt.alloc(), store);
        for (text, overlaps) in OVERLAPS {
            assert_overlaps(&rt, rt.alloc(), store, text, overlaps);
        }
    });
}

/// The rows of `alpha`.
fn loaded(rt: &impl Abort, alloc: Global, store: &mut Desk) -> HolderRows {
    let rows = store.load_holder(alloc, &name(rt, "alpha"));
    rows.expect(rt, "a load").expect(rt, "rows")
}

/// How many runs a delegation to `alpha` takes away, and how many it puts.
fn runs_moved(rt: &impl Abort, alloc: Global, view: &View, text: &str) -> (usize, usize) {
    let command = Command::Delegate {
        holder: name(rt, "alpha"),
        prefix: parse_prefix(rt, text),
    };
    let (day, caller) = (first_of_march(rt), name(rt, "reg"));
    let change = decide(alloc, &charter(rt, alloc), view, day, &caller, &command);
    let Change::Holders { first, .. } = change.expect(rt, text) else {
        rt.panic("another change")
    };
    match &first.edit {
        Edit::Hold { removed, added, .. } => (removed.len(), added.len()),
        _ => rt.panic("another edit"),
    }
}

/// What is viewed of `alpha`, which holds its run, for a prefix that is not taken.
fn view_of_holder(rt: &impl Abort, alloc: Global) -> View {
    on_holder(rt, alloc, |store| {
        hold(rt, alloc, store);
        View {
            holder: Some(loaded(rt, alloc, store)),
            taken: false,
        }
    })
}

#[test]
fn delegation_takes_away_only_what_it_touches(rt: HostRuntime) {
    let view = view_of_holder(&rt, rt.alloc());
    for (text, moved) in [("192.0.3.0/24", (1, 1)), ("192.0.4.0/24", (0, 1))] {
        assert_same(&rt, runs_moved(&rt, rt.alloc(), &view, text), moved, text);
    }
}

fn assert_refused(rt: &impl Abort, store: &mut Desk, edit: Edit) {
    let result = change(rt, store, edit);
    assert!(rt; matches!(result, Err(StoreFault::Database)));
}

#[test]
fn what_breaks_a_key_is_refused(rt: HostRuntime) {
    on_holder(&rt, rt.alloc(), |store| {
        assert_refused(&rt, store, Edit::Register);
        create(&rt, rt.alloc(), store, 1, TO_24);
        // The same AS, prefix and maxLength under another number.
        let again = parse_auth(&rt, rt.alloc(), 2, TO_24);
        assert_refused(&rt, store, Edit::Create(again));
    });
}

/// A database that has the tables of a desk.
fn created(rt: &impl Abort, alloc: Global, charter: &Charter) -> Connection<MemStore> {
    let conn = Connection::open_in_memory(alloc).expect(rt, "a database");
    Store::create_on(conn, charter)
        .expect(rt, "a store")
        .close()
}

#[test]
fn database_that_has_tables_is_refused(rt: HostRuntime) {
    let charter = charter(&rt, rt.alloc());
    let again = Store::create_on(created(&rt, rt.alloc(), &charter), &charter);
    assert!(rt; matches!(again, Err(StoreFault::Database)));
}

/// A maxLength below the length of its prefix: the columns hold it, and no VRP has it.
#[test]
fn authorization_that_gives_no_vrp_is_another_schema(rt: HostRuntime) {
    on_holder(&rt, rt.alloc(), |store| {
        create(&rt, rt.alloc(), store, 1, TO_23);
        let vrps = store.all_auths_on(rt.alloc(), first_of_march(&rt));
        assert!(rt; matches!(vrps, Err(StoreFault::Schema)));
    });
}

fn apply_files(rt: &impl Abort, store: &mut Desk, files: Vec<NamedSlurm>) {
    let set = SlurmSet::make(files).expect(rt, "a set");
    store.apply(&Change::Exceptions(set)).expect(rt, "a change");
}

fn push_file(rt: &impl Abort, files: &mut Vec<NamedSlurm>, text: &str, file: Slurm) {
    let name = name(rt, text);
    files.push(NamedSlurm { name, file }).expect(rt, "a file");
}

fn apply_file(rt: &impl Abort, alloc: Global, store: &mut Desk, text: &str, file: Slurm) {
    let mut files = Vec::new(alloc);
    push_file(rt, &mut files, text, file);
    apply_files(rt, store, files);
}

/// The files of the store that have entries.
fn files_of(rt: &impl Abort, alloc: Global, store: &mut Desk) -> Vec<Slurm> {
    store.slurm_files(alloc).expect(rt, "files")
}

/// The one file of the store.
fn only_file(rt: &impl Abort, alloc: Global, store: &mut Desk) -> Slurm {
    let mut files = files_of(rt, alloc, store);
    assert_same(rt, files.len(), 1, "files");
    files.pop().expect(rt, "a file")
}

fn sample(rt: &impl Abort, alloc: Global) -> Slurm {
    Slurm::read(alloc, SAMPLE.as_bytes()).expect(rt, "a file")
}

#[test]
fn slurm_file_is_loaded_as_it_was_applied(rt: HostRuntime) {
    on_holder(&rt, rt.alloc(), |store| {
        apply_file(&rt, rt.alloc(), store, "main", sample(&rt, rt.alloc()));
        let loaded = only_file(&rt, rt.alloc(), store);
        let file = sample(&rt, rt.alloc());
        assert!(rt; loaded.filters() == file.filters());
        assert!(rt; loaded.assertions() == file.assertions());
    });
}

/// A file of these filters.
fn file_of(rt: &impl Abort, alloc: Global, filters: &[Filter]) -> Slurm {
    let filters = Vec::from_slice(alloc, filters).expect(rt, "filters");
    Slurm::make(filters, Vec::new(alloc)).expect(rt, "a file")
}

#[test]
fn slurm_file_without_entries_is_not_loaded(rt: HostRuntime) {
    on_holder(&rt, rt.alloc(), |store| {
        apply_file(&rt, rt.alloc(), store, "main", sample(&rt, rt.alloc()));
        apply_file(&rt, rt.alloc(), store, "a", file_of(&rt, rt.alloc(), &[]));
        assert!(rt; files_of(&rt, rt.alloc(), store).is_empty());
    });
}

/// The filters of the files.
fn filters_of(rt: &impl Abort, alloc: Global, files: &[Slurm]) -> Vec<Filter> {
    let mut filters = Vec::new(alloc);
    for file in files {
        let more = filters.extend_from_slice(file.filters());
        more.expect(rt, "filters");
    }
    filters
}

/// Three files of one filter each, out of their order, and one without entries.
fn four_files(rt: &impl Abort, alloc: Global) -> Vec<NamedSlurm> {
    let mut files = Vec::new(alloc);
    for (text, asn) in [("b", 64_497), ("main", 64_498), ("a", 64_496)] {
        let file = file_of(rt, alloc, &[Filter::By(Asn(asn))]);
        push_file(rt, &mut files, text, file);
    }
    push_file(rt, &mut files, "empty", file_of(rt, alloc, &[]));
    files
}

#[test]
fn slurm_files_are_loaded_by_name(rt: HostRuntime) {
    on_holder(&rt, rt.alloc(), |store| {
        apply_files(&rt, store, four_files(&rt, rt.alloc()));
        let files = files_of(&rt, rt.alloc(), store);
        assert_same(&rt, files.len(), 3, "files");
        let expected = [
            Filter::By(Asn(64_496)),
            Filter::By(Asn(64_497)),
            Filter::By(Asn(64_498)),
        ];
        assert!(rt; filters_of(&rt, rt.alloc(), &files).as_slice() == expected.as_slice());
    });
}

/// Exceptions of another program, out of their order and with positions left out.
const EXCEPTIONS: &str = "
INSERT INTO slurm VALUES ('main', 1, 900, NULL, NULL, NULL, NULL, 64499), ('main', 2, 5, 4, x'000000000000000000000000c6336400', 24, 25, 64500);
INSERT INTO slurm VALUES ('main', 1, 8, 4, x'000000000000000000000000c0000200', 24, NULL, NULL), ('main', 1, 70, 4, x'000000000000000000000000c0000200', 24, NULL, 64497);
";

/// The one file of those exceptions.
fn exceptions_loaded(rt: &impl Abort, alloc: Global) -> Slurm {
    let mut conn = database(rt, alloc, TABLES);
    conn.execute_batch(EXCEPTIONS).expect(rt, "exceptions");
    only_file(rt, alloc, &mut opened(rt, alloc, conn))
}

#[test]
fn exceptions_are_loaded_by_their_positions(rt: HostRuntime) {
    let prefix = parse_prefix(&rt, "192.0.2.0/24");
    let filters = [
        Filter::Under(prefix),
        Filter::Both(prefix, Asn(64_497)),
        Filter::By(Asn(64_499)),
    ];
    let file = exceptions_loaded(&rt, rt.alloc());
    assert!(rt; file.filters() == filters.as_slice());
    assert_same(&rt, file.assertions().len(), 1, "assertions");
}

/// `alpha` gives AS 64496 with 192.0.2.0/24 to length 24 by number 1, and to length 25 by number 2.
fn add_two(rt: &impl Abort, alloc: Global, store: &mut Desk) {
    add_rows(rt, alloc, store);
    create(rt, alloc, store, 2, TO_25);
}

/// What is loaded for a create at a holder.
fn for_create(rt: &impl Abort, alloc: Global, store: &mut Desk, holder: &str, row: &str) -> Loaded {
    let auth = parse_auth(rt, alloc, 1, row);
    let terms = AuthTerms {
        asn: auth.asn,
        entries: auth.entries,
        from: auth.from,
        until: auth.until,
    };
    let holder = name(rt, holder);
    loaded_for(rt, alloc, store, &Command::Create { holder, terms })
}

/// The grants that were loaded.
fn grants_of(loaded: &Loaded) -> &[Granted] {
    match &loaded.rows {
        Some(rows) => &rows.grants,
        None => &[],
    }
}

/// Terms, and whether they are held and whether they are given. Only held ones are looked for.
const CREATES: &str = r#"
# held
AS64496 192.0.2.0/24 24 2026-03-01 2026-03-01 => (true, true)
AS64496 192.0.2.0/24 25 2026-03-01 2026-03-01 => (true, true)
AS64496 192.0.2.0/24 26 2026-03-01 2026-03-01 => (true, false)
AS64497 192.0.2.0/24 24 2026-03-01 2026-03-01 => (true, false)
AS64496 192.0.2.0/25 25 2026-03-01 2026-03-01 => (true, false)
AS64496 192.0.2.255/32 32 2026-03-01 2026-03-01 => (true, false)
# not_held
AS64496 192.0.3.0/24 24 2026-03-01 2026-03-01 => (false, false)
AS64496 192.0.2.0/23 24 2026-03-01 2026-03-01 => (false, false)
AS64496 ::/0 24 2026-03-01 2026-03-01 => (false, false)
"#;

/// The two answers are the output of the row.
fn assert_pair(rt: &impl Abort, alloc: Global, pair: (bool, bool), row: &Row<'_>) {
    let text = format!(in alloc; "{pair:?}").expect(rt, "a text");
    assert_output(rt, text.as_str(), row);
}

fn assert_create(rt: &impl Abort, alloc: Global, store: &mut Desk, row: &Row<'_>) {
    let loaded = for_create(rt, alloc, store, "alpha", row.input);
    assert!(rt; grants_of(&loaded) == [grant(rt)].as_slice());
    let answers = &loaded.answers;
    let found = (answers.created, answers.is_full);
    assert_same(rt, found, (2, false), row.input);
    assert_pair(rt, alloc, (answers.holds, answers.gives), row);
}

#[test]
fn what_a_create_asks_is_loaded(rt: HostRuntime) {
    on_holder(&rt, rt.alloc(), |store| {
        add_two(&rt, rt.alloc(), store);
        for row in &rows_of(&rt, rt.alloc(), CREATES) {
            assert_create(&rt, rt.alloc(), store, row);
        }
    });
}

#[test]
fn create_at_nobody_is_loaded(rt: HostRuntime) {
    on_holder(&rt, rt.alloc(), |store| {
        add_two(&rt, rt.alloc(), store);
        let loaded = for_create(&rt, rt.alloc(), store, "beta", TO_24);
        assert!(rt; grants_of(&loaded).is_empty());
        let answers = &loaded.answers;
        assert_same(&rt, (answers.created, answers.holds), (0, false), "beta");
    });
}

/// Whether no more authorizations may be made where so many are active, and four were withdrawn.
fn is_full(rt: &impl Abort, alloc: Global, count: u32) -> bool {
    on_holder(rt, alloc, |store| {
        hold(rt, alloc, store);
        import(rt, alloc, store, count);
        let loaded = for_create(rt, alloc, store, "alpha", TO_24);
        loaded.answers.is_full
    })
}

#[test]
fn a_thousand_authorizations_are_full(rt: HostRuntime) {
    for (count, expected) in [(1, false), (999, false), (1000, true)] {
        assert_same(&rt, is_full(&rt, rt.alloc(), count), expected, count);
    }
}

/// A number and the lengths that are asked for, whether the number is there, and whether another one
/// gives the AS with the amended entry.
const AMENDMENTS: &str = r#"
# there
1 24 => (true, false)
1 25 => (true, true)
1 26 => (true, false)
1 23 => (true, false)
1 25 25 => (true, false)
2 24 => (true, true)
2 25 => (true, false)
# not_there
3 24 => (false, false)
"#;

/// The lengths of these words.
fn parse_maxes(rt: &impl Abort, alloc: Global, words: &str) -> Vec<u8> {
    let mut maxes = Vec::new(alloc);
    for word in words.split(' ') {
        let max = word.parse::<u8>().expect(rt, words);
        maxes.push(max).expect(rt, "memory");
    }
    maxes
}

fn assert_amendment(rt: &impl Abort, alloc: Global, store: &mut Desk, row: &Row<'_>) {
    let (number, maxes) = split_word(rt, row.input);
    let number = number.parse::<u32>().expect(rt, number);
    let command = Command::Amend {
        holder: name(rt, "alpha"),
        number,
        maxes: parse_maxes(rt, alloc, maxes),
        until: first_of_march(rt),
    };
    let loaded = loaded_for(rt, alloc, store, &command);
    assert!(rt; grants_of(&loaded) == [grant(rt)].as_slice(), "{number}");
    let rows = loaded.rows.as_ref().expect(rt, "rows");
    let found = rows.auths.iter().any(|auth| auth.number == number);
    assert_pair(rt, alloc, (found, loaded.answers.gives), row);
}

#[test]
fn what_an_amendment_asks_is_loaded(rt: HostRuntime) {
    on_holder(&rt, rt.alloc(), |store| {
        add_two(&rt, rt.alloc(), store);
        for row in &rows_of(&rt, rt.alloc(), AMENDMENTS) {
            assert_amendment(&rt, rt.alloc(), store, row);
        }
    });
}
