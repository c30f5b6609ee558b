//! Sets of addresses.
ghost use Rattle.std.specs.Prelude.{◌≡◌, ◌↔◌, false, List, [], ◌++◌, IsTrue, OnOk, OnErr, IfOk};
ghost use Rattle.std.specs.List.{list_any, list_all};
ghost use Rattle.std.specs.Option.{option_copied, option_map_or, option_to_list};
ghost use Rattle.addr.specs.Address.{has_address};
ghost use Rattle.addr.specs.Spans.{span_has, span_covers, span_meets, is_apart_below, AddsAddresses, TakesAddresses, AreMaximal, HaveAll, HaveSome};
ghost use Rattle.addr.specs.Spans.{is_one_of, without_runs};
ghost use Rattle.addr.specs.steps.Parts.{AppendsParts};
ghost use Rattle.addr.specs.declared.span.Span.{Span};

use crate::{Prefix, Span};
use std::alloc::{AllocError, Global};
use std::marker::Model;

/// A set of addresses of both families, kept as maximal runs.
#[derive(Debug, Drop)]
pub struct Holdings {
    spans: Vec<Span>,
}

impl Model for Holdings {
    ghost Value = { List Span };

    ghost view = { λ h. h.spans.items };

    ghost invariant = { λ h. AreMaximal h.spans.items };
}

impl Clone for Holdings {
    ghost is_clone = { λ holdings copy. copy ≡ holdings };

    fn clone(&self) -> Result<Self, AllocError> {
        Ok(Holdings {
            spans: self.spans.clone()?,
        })
    }
}

impl Holdings {
    /// The empty set, which takes no memory.
    pub fn new(alloc: Global) -> Self
        ensures { result ≡ [] }
    {
        Holdings {
            spans: Vec::new(alloc),
        }
    }

    /// The maximal runs of neighbouring addresses of the set, rising.
    pub fn spans(&self) -> &[Span]
        ensures items { result.now ≡ self.now }
        ensures maximal { AreMaximal self.now }
    {
        &self.spans
    }

    /// Whether every address of the prefix is in the set.
    pub fn holds(&self, prefix: &Prefix) -> bool
        ensures by_span { result ≡ list_any (λ s. span_covers s prefix.now) self.now }
        ensures each { IsTrue result ↔ HaveAll self.now prefix.now }
    {
        is_covered(&self.spans, prefix)
    }

    /// Whether some address of the prefix is in the set.
    pub fn touches(&self, prefix: &Prefix) -> bool
        ensures by_span { result ≡ list_any (λ s. span_meets s prefix.now) self.now }
        ensures some { IsTrue result ↔ HaveSome self.now prefix.now }
    {
        is_met(&self.spans, prefix)
    }

    /// The runs of the set that are no runs of the other set.
    pub fn without_runs(&self, others: &Holdings) -> Result<Vec<Span>, AllocError>
        ensures items { IfOk result (λ v. v.items ≡ without_runs others.now self.now) }
        ensures maximal { AreMaximal self.now }
    {
        self.spans
            .iter()
            .filter(|span| !others.has_run(span))
            .copied()
            .collect(*self.spans.allocator())
    }

    fn has_run(&self, span: &Span) -> bool
        ensures { result ≡ is_one_of self.now span.now }
    {
        self.spans.binary_search(span).is_ok()
    }

    /// Puts every address of the prefix into the set. On an error the set stays as it was.
    pub fn add(&mut self, prefix: &Prefix) -> Result<(), AllocError>
        ensures ok { OnOk result (AddsAddresses self.old self.new (has_address prefix.now)) }
        ensures err { OnErr result (self.new ≡ self.old) }
    {
        self.add_span(&prefix.span())
    }

    /// Puts every address of the run into the set. On an error the set stays as it was.
    ///
    /// A run that lies after all others is put in one step, so that rising runs cost one step each.
    pub fn add_span(&mut self, span: &Span) -> Result<(), AllocError>
        ensures ok { OnOk result (AddsAddresses self.old self.new (span_has span.now)) }
        ensures err { OnErr result (self.new ≡ self.old) }
    {
        if is_apart_above(&self.spans, span) {
            self.spans.push(*span)?;
        } else {
            self.spans = with_span(*self.spans.allocator(), &self.spans, *span)?;
        }
        Ok(())
    }

    /// Takes every address of the prefix out of the set. On an error the set stays as it was.
    pub fn take(&mut self, prefix: &Prefix) -> Result<(), AllocError>
        ensures ok { OnOk result (TakesAddresses self.old self.new (has_address prefix.now)) }
        ensures err { OnErr result (self.new ≡ self.old) }
    {
        self.spans = without_span(*self.spans.allocator(), &self.spans, prefix.span())?;
        Ok(())
    }
}

fn is_covered(spans: &[Span], prefix: &Prefix) -> bool
    requires { AreMaximal spans.now }
    ensures { result ≡ list_any (λ s. span_covers s prefix.now) spans.now }
{
    first_not_before(spans, prefix).is_some_and(|span| span.covers(prefix))
}

fn is_met(spans: &[Span], prefix: &Prefix) -> bool
    requires { AreMaximal spans.now }
    ensures { result ≡ list_any (λ s. span_meets s prefix.now) spans.now }
{
    first_not_before(spans, prefix).is_some_and(|span| span.meets(prefix))
}

/// The first run that does not end before the prefix. It covers the prefix, or meets it, if and
/// only if one of the runs does.
fn first_not_before<'a>(spans: &'a [Span], prefix: &Prefix) -> Option<&'a Span>
    requires { AreMaximal spans.now }
    ensures covers { option_map_or (λ s. span_covers s prefix.now) (option_copied result) false
        ≡ list_any (λ s. span_covers s prefix.now) spans.now }
    ensures meets { option_map_or (λ s. span_meets s prefix.now) (option_copied result) false
        ≡ list_any (λ s. span_meets s prefix.now) spans.now }
{
    let start = spans.partition_point(|span| span.is_before(prefix));
    spans[start..].first()
}

/// Whether every run lies before the span, with an address between them.
fn is_apart_above(spans: &[Span], span: &Span) -> bool
    requires { AreMaximal spans.now }
    ensures { result ≡ list_all (λ s. is_apart_below s span.now) spans.now }
{
    match spans {
        [.., last] => last.is_apart_below(span),
        [] => true,
    }
}

/// The maximal runs of the addresses of `spans` and those of `added`.
fn with_span(alloc: Global, spans: &[Span], added: Span) -> Result<Vec<Span>, AllocError>
    requires { AreMaximal spans.now }
    ensures maximal { IfOk result (λ v. AreMaximal v.items) }
    ensures same { IfOk result (λ v. AddsAddresses spans.now v.items (span_has added)) }
{
    let mut kept = Vec::with_capacity(alloc, spans.len() + 1)?;
    // The run that may still grow: those kept end before it, those to come do not start before it.
    let mut pending = added;
    for span in spans {
        if span.is_apart_below(&pending) {
            kept.push(*span)?;
        } else if pending.is_apart_below(span) {
            kept.push(pending)?;
            pending = *span;
        } else {
            pending = pending.joined(span);
        }
    }
    kept.push(pending)?;
    Ok(kept)
}

/// The maximal runs of the addresses of `spans` that `gone` has not.
fn without_span(alloc: Global, spans: &[Span], gone: Span) -> Result<Vec<Span>, AllocError>
    requires { AreMaximal spans.now }
    ensures maximal { IfOk result (λ v. AreMaximal v.items) }
    ensures same { IfOk result (λ v. TakesAddresses spans.now v.items (span_has gone)) }
{
    let mut kept = Vec::with_capacity(alloc, spans.len() + 1)?;
    for span in spans {
        push_parts(&mut kept, span, &gone)?;
    }
    Ok(kept)
}

/// Appends the parts of `span` before and after `gone`.
fn push_parts(kept: &mut Vec<Span>, span: &Span, gone: &Span) -> Result<(), AllocError>
    ensures { OnOk result (AppendsParts span.now gone.now kept.old.items kept.new.items) }
{
    push_part(kept, span.before(gone))?;
    push_part(kept, span.after(gone))?;
    Ok(())
}

fn push_part(kept: &mut Vec<Span>, part: Option<Span>) -> Result<(), AllocError>
    ensures { OnOk result (kept.new.items ≡ kept.old.items ++ option_to_list part) }
{
    if let Some(part) = part {
        kept.push(part)?;
    }
    Ok(())
}
