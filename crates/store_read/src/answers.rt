//! What the rules of a command read, loaded from the tables.
ghost use Rattle.std.specs.Prelude.{◌≡◌, ◌≢◌, ◌∷◌, [], true, Option, Some, Err, IfOk, IfSome, IsPermutation, IsTrue, length, nat_le, option_copied};
ghost use Rattle.std.specs.List.{list_any};
ghost use Rattle.sqlite.specs.Held.{state};
ghost use Rattle.registry.specs.declared.limits.TheConstants.{MOST_AUTHORIZATIONS};
ghost use Rattle.registry.specs.RoaPrefixes.{with_maxes};
ghost use Rattle.registry.specs.Rows.{Rows};
ghost use Rattle.registry.specs.Verdict.{maxes_fit};
ghost use Rattle.store_tables.specs.TablesHold.{items_if_any};
ghost use Rattle.store_transactions.specs.Queries.{IsAsked, IsClean, IsReadyToAsk};
ghost use Rattle.store_read.specs.Loads.{AreAnswers, AreCounted, AreHeld, IsForAmend, IsForCreate, IsForDelegate, EachRowsOf, IsToldWhereApart, auths_held, created_if_any, entries_given, entries_up_to, is_other, some_gives, Finds, FindsOf, RefusesUnfit};

use crate::below::{is_held, is_taken};
use crate::load::{
    count_auths, load_counters, load_grants, load_holdings, load_numbered, load_selected,
};
use addr::{Asn, Holdings, Name, Prefix, RoaPrefix};
use registry::{Answers, Auth, AuthTerms, HolderRows, MOST_AUTHORIZATIONS, auth_of_number};
use sqlite::{Alter, Connection, Error};
use std::alloc::Global;
use store_tables::{
    Counters, EntryRow, SELECT_ENTRIES_UP_TO, SELECT_GIVEN_ENTRIES, address_bytes, given_values,
    up_to_values,
};
use store_transactions::StoreFault;

/// What is loaded for a command: rows with at least what its rules read, of the holder that it
/// names, and of the taker of a transfer; and what the rules read beside rows.
#[derive(Drop)]
pub struct Loaded {
    pub rows: Option<HolderRows>,
    pub taker: Option<HolderRows>,
    pub answers: Answers,
}

// ---- for a registration, a grant and a revocation

/// The grants of the holder and its counters, as rows with nothing else, if it is registered.
pub fn load_grants_counted<S: Alter>(
    conn: &mut Connection<S>,
    alloc: Global,
    holder: &Name,
) -> Result<Option<HolderRows>, StoreFault>
    requires { IsReadyToAsk S.Store conn.old }
    ensures asked { IsAsked S.Store conn.old conn.new result }
    ensures found { FindsOf S.Store conn.old conn.new holder.now result AreCounted }
    ensures schema { RefusesUnfit S.Store conn.old conn.new holder.now result }
{
    let Some(Counters { granted, created }) = load_counters(conn, alloc, holder)? else {
        return Ok(None);
    };
    let grants = load_grants(conn, alloc, holder)?;
    Ok(Some(HolderRows {
        holdings: Holdings::new(alloc),
        grants,
        auths: Vec::new(alloc),
        granted,
        created,
    }))
}

// ---- for a delegation

/// What the rules of a delegation of the prefix to the holder read.
pub fn load_for_delegate<S: Alter>(
    conn: &mut Connection<S>,
    alloc: Global,
    holder: &Name,
    prefix: &Prefix,
) -> Result<Loaded, StoreFault>
    requires { IsReadyToAsk S.Store conn.old }
    ensures asked { IsAsked S.Store conn.old conn.new result }
    ensures found { Finds S.Store conn.old conn.new result (IsForDelegate holder.now prefix.now) }
    ensures schema { RefusesUnfit S.Store conn.old conn.new holder.now result }
{
    // All runs, though few are beside the prefix: the edit is made of the maximal runs that the
    // holder has before and after.
    let rows = load_holdings(conn, alloc, holder)?;
    let taken = is_taken(conn, prefix)?;
    Ok(Loaded {
        rows,
        taker: None,
        answers: Answers {
            taken,
            ..Answers::NONE
        },
    })
}

// ---- for a transfer and a reclaim

/// The entries of the holder's authorizations that begin at or before the last address of the
/// prefix, in its family. All that share an address with the prefix are among them.
pub fn load_entries_up_to<S: Alter>(
    conn: &mut Connection<S>,
    alloc: Global,
    holder: &Name,
    prefix: &Prefix,
) -> Result<Vec<EntryRow>, StoreFault>
    requires { IsReadyToAsk S.Store conn.old }
    ensures asked { IsAsked S.Store conn.old conn.new result }
    ensures found { FindsOf S.Store conn.old conn.new holder.now result (λ rows entries.
        IsPermutation (items_if_any (entries_up_to prefix.now) rows) entries.items) }
    ensures schema { RefusesUnfit S.Store conn.old conn.new holder.now result }
{
    let last = address_bytes(prefix.last());
    let values = up_to_values(holder, prefix.family, &last);
    load_selected(conn, alloc, SELECT_ENTRIES_UP_TO, &values)
}

// ---- whether a VRP is given

/// The entries of the holder's authorizations that give the AS with this entry.
pub fn load_given<S: Alter>(
    conn: &mut Connection<S>,
    alloc: Global,
    holder: &Name,
    asn: Asn,
    entry: &RoaPrefix,
) -> Result<Vec<EntryRow>, StoreFault>
    requires { IsReadyToAsk S.Store conn.old }
    ensures asked { IsAsked S.Store conn.old conn.new result }
    ensures found { FindsOf S.Store conn.old conn.new holder.now result (λ rows given.
        IsPermutation (items_if_any (entries_given asn entry.now) rows) given.items) }
    ensures schema { RefusesUnfit S.Store conn.old conn.new holder.now result }
{
    let first = address_bytes(entry.prefix.first);
    let values = given_values(holder, asn, entry, &first);
    load_selected(conn, alloc, SELECT_GIVEN_ENTRIES, &values)
}

/// Whether the number is not the one that is left out, if there is one.
fn is_other(but: Option<u32>, number: u32) -> bool
    ensures { result ≡ is_other but number }
{
    match but {
        None => true,
        Some(left_out) => number != left_out,
    }
}

/// Whether some row has another number than the one that is left out.
fn has_other(rows: &[EntryRow], but: Option<u32>) -> bool
    ensures { result ≡ list_any (λ r. is_other but r.number) rows.now }
{
    rows.iter().any(|row| is_other(but, row.number))
}

/// Whether an authorization of the holder, except that of the number, gives the AS and this entry.
fn is_given<S: Alter>(
    conn: &mut Connection<S>,
    alloc: Global,
    holder: &Name,
    but: Option<u32>,
    asn: Asn,
    entry: &RoaPrefix,
) -> Result<bool, StoreFault>
    requires { IsReadyToAsk S.Store conn.old }
    ensures asked { IsAsked S.Store conn.old conn.new result }
    ensures found { FindsOf S.Store conn.old conn.new holder.now result (λ rows given.
        given ≡ some_gives but asn (entry.now ∷ []) (auths_held rows)) }
    ensures schema { RefusesUnfit S.Store conn.old conn.new holder.now result }
{
    let given = load_given(conn, alloc, holder, asn, entry)?;
    Ok(has_other(&given, but))
}

/// Whether an authorization of the holder, except that of the number, gives the AS and an entry of
/// the list; the first entry that one gives ends the search.
fn some_given<S: Alter>(
    conn: &mut Connection<S>,
    alloc: Global,
    holder: &Name,
    but: Option<u32>,
    asn: Asn,
    entries: &[RoaPrefix],
) -> Result<bool, StoreFault>
    requires ready { IsReadyToAsk S.Store conn.old }
    requires is_open { IsClean S.Store conn.old → IsTrue (state S.Store conn.old).is_open }
    ensures asked { IsAsked S.Store conn.old conn.new result }
    ensures found { FindsOf S.Store conn.old conn.new holder.now result (λ rows given.
        given ≡ some_gives but asn entries.now (auths_held rows)) }
    ensures schema { RefusesUnfit S.Store conn.old conn.new holder.now result }
{
    for entry in entries {
        if is_given(conn, alloc, holder, but, asn, entry)? {
            return Ok(true);
        }
    }
    Ok(false)
}

// ---- for a create

/// How many authorizations were made at the holder; 0 if there are no rows.
fn created_of(rows: Option<&HolderRows>) -> u32
    ensures { (held : Option Rows) → AreCounted held (option_copied rows.entry)
        → result ≡ created_if_any held }
{
    match rows {
        Some(rows) => rows.created,
        None => 0,
    }
}

/// Whether the holder holds every address of the entries, if runs are apart; the first entry that
/// it does not hold ends the search.
fn are_held<S: Alter>(
    conn: &mut Connection<S>,
    holder: &Name,
    entries: &[RoaPrefix],
) -> Result<bool, Error>
    requires ready { IsReadyToAsk S.Store conn.old }
    requires is_open { IsClean S.Store conn.old → IsTrue (state S.Store conn.old).is_open }
    ensures asked { IsAsked S.Store conn.old conn.new result }
    ensures found { Finds S.Store conn.old conn.new result (λ rows held.
        IsToldWhereApart rows held
        (AreHeld (items_if_any (λ r. r.holdings) (rows.of_holder holder.now)) entries.now)) }
{
    for entry in entries {
        if !is_held(conn, holder, &entry.prefix)? {
            return Ok(false);
        }
    }
    Ok(true)
}

/// Whether the holder has as many authorizations as it may have.
fn load_full<S: Alter>(conn: &mut Connection<S>, holder: &Name) -> Result<bool, StoreFault>
    requires { IsReadyToAsk S.Store conn.old }
    ensures asked { IsAsked S.Store conn.old conn.new result }
    ensures found { FindsOf S.Store conn.old conn.new holder.now result (λ rows is_full.
        is_full ≡ nat_le MOST_AUTHORIZATIONS (length (auths_held rows))) }
    ensures no_schema { result ≢ Err StoreFault.Schema }
{
    let count = count_auths(conn, holder)?;
    Ok(count as usize >= MOST_AUTHORIZATIONS)
}

/// What the rules of a create read beside the grants, if so many authorizations were made at the
/// holder. Nothing more is read once an answer denies the create, and authorizations are not
/// counted if fewer were ever made than may be active.
fn load_answers<S: Alter>(
    conn: &mut Connection<S>,
    alloc: Global,
    holder: &Name,
    created: u32,
    terms: &AuthTerms,
) -> Result<Answers, StoreFault>
    requires ready { IsReadyToAsk S.Store conn.old }
    requires is_open { IsClean S.Store conn.old → IsTrue (state S.Store conn.old).is_open }
    ensures asked { IsAsked S.Store conn.old conn.new result }
    ensures found { Finds S.Store conn.old conn.new result (λ rows answers.
        created ≡ created_if_any (rows.of_holder holder.now)
        → AreAnswers terms.now rows holder.now answers) }
    ensures schema { RefusesUnfit S.Store conn.old conn.new holder.now result }
{
    let entries = terms.entries.as_slice();
    let holds = are_held(conn, holder, entries)?;
    let mut answers = Answers {
        created,
        holds,
        ..Answers::NONE
    };
    if !holds {
        return Ok(answers);
    }
    answers.gives = some_given(conn, alloc, holder, None, terms.asn, entries)?;
    if answers.gives || (created as usize) < MOST_AUTHORIZATIONS {
        return Ok(answers);
    }
    answers.is_full = load_full(conn, holder)?;
    Ok(answers)
}

/// What the rules of a create of the terms at the holder read.
pub fn load_for_create<S: Alter>(
    conn: &mut Connection<S>,
    alloc: Global,
    holder: &Name,
    terms: &AuthTerms,
) -> Result<Loaded, StoreFault>
    requires { IsReadyToAsk S.Store conn.old }
    ensures asked { IsAsked S.Store conn.old conn.new result }
    ensures found { Finds S.Store conn.old conn.new result (IsForCreate holder.now terms.now) }
    ensures schema { RefusesUnfit S.Store conn.old conn.new holder.now result }
{
    let rows = load_grants_counted(conn, alloc, holder)?;
    let created = created_of(rows.as_ref());
    let answers = load_answers(conn, alloc, holder, created, terms)?;
    Ok(Loaded {
        rows,
        taker: None,
        answers,
    })
}

// ---- for an amendment

/// Whether another authorization of the holder gives a VRP that the found one would give with the
/// maxLengths. False, without a query, if none was found or they do not fit it.
fn load_shared<S: Alter>(
    conn: &mut Connection<S>,
    alloc: Global,
    holder: &Name,
    number: u32,
    auth: Option<&Auth>,
    maxes: &[u8],
) -> Result<bool, StoreFault>
    requires ready { IsReadyToAsk S.Store conn.old }
    requires is_open { IsClean S.Store conn.old → IsTrue (state S.Store conn.old).is_open }
    ensures asked { IsAsked S.Store conn.old conn.new result }
    ensures found { IsClean S.Store conn.new → IfOk result (λ is_shared.
        IfSome (option_copied auth.entry) (λ x. maxes_fit maxes.now x.entries ≡ true
        → EachRowsOf (λ rows. is_shared
        ≡ some_gives (Some number) x.asn (with_maxes maxes.now x.entries) (auths_held rows))
        holder.now (state S.Store conn.old))) }
    ensures schema { RefusesUnfit S.Store conn.old conn.new holder.now result }
{
    match auth {
        Some(auth) if auth.fits_maxes(maxes) => {
            let amended = auth.with_terms(maxes, auth.until)?;
            let entries = amended.entries.as_slice();
            some_given(conn, alloc, holder, Some(number), amended.asn, entries)
        }
        _ => Ok(false),
    }
}

/// What the rules read for an amendment of the authorization of the number to these maxLengths.
pub fn load_for_amend<S: Alter>(
    conn: &mut Connection<S>,
    alloc: Global,
    holder: &Name,
    number: u32,
    maxes: &[u8],
) -> Result<Loaded, StoreFault>
    requires { IsReadyToAsk S.Store conn.old }
    ensures asked { IsAsked S.Store conn.old conn.new result }
    ensures found { FindsOf S.Store conn.old conn.new holder.now result
        (IsForAmend number maxes.now) }
    ensures schema { RefusesUnfit S.Store conn.old conn.new holder.now result }
{
    let part = load_numbered(conn, alloc, holder, number)?;
    let found = auth_of_number(&part.auths, number);
    let gives = load_shared(conn, alloc, holder, number, found, maxes)?;
    Ok(Loaded {
        rows: Some(part),
        taker: None,
        answers: Answers {
            gives,
            ..Answers::NONE
        },
    })
}
