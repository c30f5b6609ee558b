//! What is found among the rows of all holders.
ghost use Rattle.std.specs.Prelude.{◌≡◌, ◌≢◌, ◌↔◌, true, false, List, [], ◌∷◌, ◌++◌, map, Err, IsTrue, IfOk, MatchBool, MatchOption};
ghost use Rattle.sqlite.specs.Held.{state};
ghost use Rattle.sqlite.specs.Values.{bound};
ghost use Rattle.sqlite_value.specs.declared.value.Value.TheVariants.{Blob};
ghost use Rattle.sqlite_value.specs.Order.{Row as Cells, column};
ghost use Rattle.sqlite_value.specs.Value.{owned};
ghost use Rattle.registry.specs.Values.{VrpFits};
ghost use Rattle.store_tables.specs.Cells.{family_number, number_cell, vrp_cells};
ghost use Rattle.store_tables.specs.Decode.{ShowsNone};
ghost use Rattle.store_transactions.specs.Queries.{IsAsked, IsClean, IsReadyToAsk};
ghost use Rattle.store_read.specs.steps.InForce.{ClaimsRise, FindsClaims, FindsInForce, ShowVrps, claim_key, is_claimed, key_cells, key_order, of_claims, payload_key, payload_of};
ghost use Rattle.store_read.specs.Loads.{MeetsSome, Finds};

use addr::{Day, Family, Name, Prefix, Vrp};
use sqlite::types::{ToSql, ValueRef};
use sqlite::{Alter, Connection, Error, Row};
use sqlite_value::order::compare;
use std::alloc::{AllocError, Global};
use std::cmp::Ordering;
use store_tables::{
    Claim, FromRow, OfHolder, SELECT_CLAIMS_IN_FORCE, SELECT_OVERLAP, SELECT_PAYLOADS,
    address_bytes, family_number,
};
use store_transactions::{StoreFault, TakeRow, ask, take_each};

/// A family, and the bytes of a first and a last address.
fn run_values<'a>(family: Family, first: &'a [u8], last: &'a [u8]) -> [ValueRef<'a>; 3]
    ensures { bound result
        ≡ number_cell (family_number family) ∷ Blob first.now ∷ Blob last.now ∷ [] }
{
    [
        family_number(family).to_sql(),
        first.to_sql(),
        last.to_sql(),
    ]
}

/// A day, as its number.
fn day_values<'a>(day: Day) -> [ValueRef<'a>; 1]
    ensures { bound result ≡ number_cell day ∷ [] }
{
    [day.number().to_sql()]
}

/// Whether some holder holds an address of the prefix.
pub fn some_overlap<S: Alter>(conn: &mut Connection<S>, prefix: &Prefix) -> Result<bool, Error>
    requires { IsReadyToAsk S.Store conn.old }
    ensures asked { IsAsked S.Store conn.old conn.new result }
    ensures found { Finds S.Store conn.old conn.new result (λ rows some.
        IsTrue some ↔ MeetsSome rows prefix.now) }
{
    let first = address_bytes(prefix.first);
    let last = address_bytes(prefix.last());
    let found = ask(
        conn,
        SELECT_OVERLAP,
        &run_values(prefix.family, &first, &last),
    )?;
    Ok(!found.is_empty())
}

/// The holder and the number of a claim.
#[derive(Clone, Copy)]
pub(crate) struct ClaimKey {
    holder: Name,
    number: u32,
}

/// The keys of the claims so far.
#[derive(Drop)]
struct Claims {
    keys: Vec<ClaimKey>,
}

impl Claims {
    /// The keys of no claims.
    fn none(alloc: Global) -> Claims
        ensures { result.keys.items ≡ [] }
    {
        Claims {
            keys: Vec::new(alloc),
        }
    }
}

impl TakeRow for Claims {
    ghost took = { λ _ rows now. map key_cells now.keys.items ≡ map claim_key rows };

    fn take(mut self, row: &Row) -> Result<Claims, StoreFault> {
        // An opening refuses a desk with a row that shows no claim.
        let Some(claim) = OfHolder::<Claim>::in_row(row) else {
            return Err(StoreFault::Database);
        };
        let key = ClaimKey {
            holder: claim.holder,
            number: claim.row.number,
        };
        let Ok(()) = self.keys.push(key) else {
            return Err(StoreFault::Database);
        };
        Ok(self)
    }
}

/// The claims of all holders that are in force on the day, by rising holder and number.
fn claims_in_force<S: Alter>(
    conn: &mut Connection<S>,
    alloc: Global,
    day: Day,
) -> Result<Vec<ClaimKey>, StoreFault>
    requires { IsReadyToAsk S.Store conn.old }
    ensures asked { IsAsked S.Store conn.old conn.new result }
    ensures found { IsClean S.Store conn.new → IfOk result (λ claims.
        FindsClaims day (state S.Store conn.old).now claims.items) }
    ensures rising { IsClean S.Store conn.new → IfOk result (λ claims. ClaimsRise claims.items) }
    ensures no_schema { result ≢ Err StoreFault.Schema }
{
    let taken = take_each(
        conn,
        SELECT_CLAIMS_IN_FORCE,
        &day_values(day),
        Claims::none(alloc),
    )?;
    Ok(taken.keys)
}

/// The value in a column, and NULL past the end.
pub(crate) fn cell(row: &Row, at: usize) -> ValueRef<'_>
    ensures { owned result ≡ column row.now at }
{
    row.get_ref(at).unwrap_or(ValueRef::Null)
}

/// How the holder and the number of a claim compare to those of the claim of a payload.
fn compare_keys(claim: &ClaimKey, payload: &Row) -> Ordering
    ensures { result ≡ key_order (key_cells claim.now) (payload_key payload.now) }
{
    let holders = compare(claim.holder.as_str().to_sql(), cell(payload, 5));
    holders.then(compare(claim.number.to_sql(), cell(payload, 6)))
}

/// Whether the payload is of one of the claims.
fn is_claimed(claims: &[ClaimKey], payload: &Row) -> bool
    ensures { ClaimsRise claims.now
        → result ≡ is_claimed (map key_cells claims.now) payload.now }
{
    claims
        .binary_search_by(|claim| compare_keys(claim, payload))
        .is_ok()
}

/// The claims in force, and the VRPs of their payloads so far, up to the first that shows none.
#[derive(Drop)]
pub(crate) struct InForce {
    claims: Vec<ClaimKey>,
    vrps: Vec<Vrp>,
    is_read: bool,
}

/// The same with the VRP that one more payload shows, if it shows one.
fn with_vrp(mut taken: InForce, payload: &Row) -> Result<InForce, StoreFault>
    requires { taken.is_read ≡ true }
    ensures claims { IfOk result (λ now. now.claims ≡ taken.claims) }
    ensures taken { IfOk result (λ now. MatchBool now.is_read
        (map vrp_cells now.vrps.items
        ≡ map vrp_cells taken.vrps.items ++ payload_of payload.now ∷ [])
        (ShowsNone vrp_cells VrpFits (payload_of payload.now))) }
    ensures no_schema { result ≢ Err StoreFault.Schema }
{
    let Some(vrp) = Vrp::in_row(payload) else {
        taken.is_read = false;
        return Ok(taken);
    };
    let Ok(()) = taken.vrps.push(vrp) else {
        return Err(StoreFault::Database);
    };
    Ok(taken)
}

impl InForce {
    /// The VRPs of no payloads, with room for one of each claim.
    fn none(alloc: Global, claims: Vec<ClaimKey>) -> Result<InForce, AllocError>
        ensures claims { IfOk result (λ none. none.claims ≡ claims) }
        ensures vrps { IfOk result (λ none. none.vrps.items ≡ []) }
        ensures is_read { IfOk result (λ none. none.is_read ≡ true) }
    {
        let vrps = Vec::with_capacity(alloc, claims.len())?;
        Ok(InForce {
            claims,
            vrps,
            is_read: true,
        })
    }

    /// The VRPs, if each payload of a claim in force showed one.
    pub(crate) fn into_vrps(self) -> Option<Vec<Vrp>>
        ensures { MatchOption result (self.is_read ≡ false)
            (λ vrps. (self.is_read ≡ true) × (vrps ≡ self.vrps)) }
    {
        let InForce {
            claims: _,
            vrps,
            is_read,
        } = self;
        if is_read { Some(vrps) } else { None }
    }
}

impl TakeRow for InForce {
    ghost took = { λ start rows now. (now.claims ≡ start.claims)
        × (ClaimsRise start.claims.items
        → ShowVrps (of_claims start.claims.items rows) now.vrps.items now.is_read) };

    fn take(self, row: &Row) -> Result<InForce, StoreFault> {
        if !self.is_read || !is_claimed(&self.claims, row) {
            return Ok(self);
        }
        with_vrp(self, row)
    }
}

/// Takes the payloads of the authorizations of all holders that are in force on the day.
pub(crate) fn take_in_force<S: Alter>(
    conn: &mut Connection<S>,
    alloc: Global,
    day: Day,
) -> Result<InForce, StoreFault>
    requires { IsReadyToAsk S.Store conn.old }
    ensures asked { IsAsked S.Store conn.old conn.new result }
    ensures taken { IsClean S.Store conn.new → IfOk result (λ taken. (rows : List Cells)
        × FindsInForce day (state S.Store conn.old).now rows
        × ShowVrps rows taken.vrps.items taken.is_read) }
    ensures no_schema { result ≢ Err StoreFault.Schema }
{
    let claims = claims_in_force(conn, alloc, day)?;
    let none = InForce::none(alloc, claims)?;
    take_each(conn, SELECT_PAYLOADS, &[], none)
}
