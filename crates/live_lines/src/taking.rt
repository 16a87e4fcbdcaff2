//! The lines of a feed, taken one after the other.

ghost use Rattle.std.specs.Prelude.{◌≡◌, ◌≤◌, ◌+◌, ◌*◌, ◌∷◌, [], None, false, IfOk, OnErr, OnOk, All, length};
ghost use Rattle.change_feed.specs.Feeds.{is_stop};
ghost use Rattle.plan_changes.specs.Fits.{IsOfSchema};
ghost use Rattle.plan_facts.specs.Limits.{field_limit};
ghost use Rattle.plan_rules.specs.Range.{sizes_of};
ghost use Rattle.live_lines.specs.Taking.{Took, TookFront, change_line, feed_on, grounds, searched, taken, taken_at, with_change};

use crate::line::{applied_line, fault_of, refused_line};
use plan_changes::{Body, Change, Post};
use plan_facts::{Memory, Names, Schema};
use plan_reports::Line;
use plan_rules::{Book, Judges, Rules, Steps};
use score_director::Director;
use std::sync::ledger::Ledger;

/// Makes a change, if it isn't refused, and answers the line that says what became of it. At want of memory all is as
/// before.
fn take_change<B: Book, L: Ledger>(
    director: &mut Director<B>,
    rules: &Rules<B>,
    schema: &Schema,
    names: &mut Names,
    change: &Change,
    number: u32,
    boundary: u32,
    steps: &mut Steps<L>,
) -> Result<Line, Memory>
    requires judges { ⟦<Rules<B> as Judges>⟧.judges rules.now director.old.weights (sizes_of director.old.plan) }
    requires own { rules.now.defs ≡ director.old.rules }
    requires rest { director.old.base ≡ None }
    requires schema { IsOfSchema schema.now director.old.plan }
    requires room { length names.old + 16 ≤ field_limit }
    ensures took { let by = grounds schema.now rules.now.defs rules.now.caps in
        let after = with_change by (searched director.old names.old) change.now in
        OnOk result (searched director.new names.new ≡ after) }
    ensures told { let by = grounds schema.now rules.now.defs rules.now.caps in
        let line = change_line by (searched director.old names.old) number boundary change.now in
        IfOk result (λ told. told ≡ line) }
    ensures err { OnErr result (director.new ≡ director.old) }
    ensures names_stay { OnErr result (names.new ≡ names.old) }

    // The next change may be looked at.
    ensures judges { ⟦<Rules<B> as Judges>⟧.judges rules.now director.new.weights (sizes_of director.new.plan) }
    ensures own { rules.now.defs ≡ director.new.rules }
    ensures rest { director.new.base ≡ None }
    ensures schema { IsOfSchema schema.now director.new.plan }
    ensures few { length names.new ≤ length names.old + 16 }
{
    match director.ready(rules, schema, names, change) {
        Ok(ready) => {
            director.change(rules, names, &ready, steps)?;
            Ok(applied_line(&ready, number, boundary))
        }
        Err(fault) => refused_line(fault, number, boundary),
    }
}

/// Takes a line of a feed at a boundary: makes the change that it is, if that isn't refused, and answers the line that says
/// what became of it. A refused line changes nothing, and at want of memory all is as before.
pub fn take_line<B: Book, L: Ledger>(
    director: &mut Director<B>,
    rules: &Rules<B>,
    schema: &Schema,
    names: &mut Names,
    post: &Post,
    boundary: u32,
    steps: &mut Steps<L>,
) -> Result<Line, Memory>
    requires judges { ⟦<Rules<B> as Judges>⟧.judges rules.now director.old.weights (sizes_of director.old.plan) }
    requires own { rules.now.defs ≡ director.old.rules }
    requires rest { director.old.base ≡ None }
    requires schema { IsOfSchema schema.now director.old.plan }
    requires room { length names.old + 16 ≤ field_limit }
    requires line { is_stop post.now.body ≡ false }
    ensures took { let feed = feed_on (grounds schema.now rules.now.defs rules.now.caps) in
        let after = feed.handle (searched director.old names.old) (taken boundary post.now) in
        OnOk result (searched director.new names.new ≡ after) }
    ensures told { let feed = feed_on (grounds schema.now rules.now.defs rules.now.caps) in
        let lines = feed.tells (searched director.old names.old) (taken boundary post.now) in
        IfOk result (λ line. line ∷ [] ≡ lines) }
    ensures err { OnErr result (director.new ≡ director.old) }
    ensures names_stay { OnErr result (names.new ≡ names.old) }

    // The next line may be taken.
    ensures judges { ⟦<Rules<B> as Judges>⟧.judges rules.now director.new.weights (sizes_of director.new.plan) }
    ensures own { rules.now.defs ≡ director.new.rules }
    ensures rest { director.new.base ≡ None }
    ensures schema { IsOfSchema schema.now director.new.plan }
    ensures few { length names.new ≤ length names.old + 16 }
{
    match &post.body {
        Body::Do(change) => take_change(
            director, rules, schema, names, change, post.line, boundary, steps,
        ),
        Body::Bad(fault) => refused_line(fault_of(*fault), post.line, boundary),
        Body::Stop(_) => unreachable!(),
    }
}

/// Takes a line of a feed at a boundary, and appends the line that says what became of it. At want of memory all is as
/// before.
fn take_next<B: Book, L: Ledger>(
    director: &mut Director<B>,
    rules: &Rules<B>,
    schema: &Schema,
    names: &mut Names,
    post: &Post,
    boundary: u32,
    into: &mut Vec<Line>,
    steps: &mut Steps<L>,
) -> Result<(), Memory>
    requires judges { ⟦<Rules<B> as Judges>⟧.judges rules.now director.old.weights (sizes_of director.old.plan) }
    requires own { rules.now.defs ≡ director.old.rules }
    requires rest { director.old.base ≡ None }
    requires schema { IsOfSchema schema.now director.old.plan }
    requires room { length names.old + 16 ≤ field_limit }
    requires line { is_stop post.now.body ≡ false }
    ensures took { let feed = feed_on (grounds schema.now rules.now.defs rules.now.caps) in
        let before = searched director.old names.old in
        let after = searched director.new names.new in
        OnOk result (Took feed (taken boundary post.now ∷ []) before after into.old.items into.new.items) }
    ensures err { OnErr result (director.new ≡ director.old) }
    ensures names_stay { OnErr result (names.new ≡ names.old) }
    ensures untold { OnErr result (into.new.items ≡ into.old.items) }

    // The next line may be taken.
    ensures judges { ⟦<Rules<B> as Judges>⟧.judges rules.now director.new.weights (sizes_of director.new.plan) }
    ensures own { rules.now.defs ≡ director.new.rules }
    ensures rest { director.new.base ≡ None }
    ensures schema { IsOfSchema schema.now director.new.plan }
    ensures few { length names.new ≤ length names.old + 16 }
{
    into.reserve(1)?;
    let line = take_line(director, rules, schema, names, post, boundary, steps)?;
    into.push_reserved(line);
    Ok(())
}

/// Takes lines of a feed at a boundary, in order, each once, and appends the lines that say what became of them. At want of
/// memory the first so many were taken, and nothing else was done.
pub fn take_lines<B: Book, L: Ledger>(
    director: &mut Director<B>,
    rules: &Rules<B>,
    schema: &Schema,
    names: &mut Names,
    posts: &[Post],
    boundary: u32,
    into: &mut Vec<Line>,
    steps: &mut Steps<L>,
) -> Result<(), Memory>
    requires judges { ⟦<Rules<B> as Judges>⟧.judges rules.now director.old.weights (sizes_of director.old.plan) }
    requires own { rules.now.defs ≡ director.old.rules }
    requires rest { director.old.base ≡ None }
    requires schema { IsOfSchema schema.now director.old.plan }
    requires room { length names.old + 16 * length posts.now ≤ field_limit }
    requires lines { All (λ post. is_stop post.body ≡ false) posts.now }
    ensures took { let feed = feed_on (grounds schema.now rules.now.defs rules.now.caps) in
        let before = searched director.old names.old in
        let after = searched director.new names.new in
        OnOk result (Took feed (taken_at boundary posts.now) before after into.old.items into.new.items) }
    ensures front { let feed = feed_on (grounds schema.now rules.now.defs rules.now.caps) in
        let before = searched director.old names.old in
        let after = searched director.new names.new in
        OnErr result (TookFront feed (taken_at boundary posts.now) before after into.old.items into.new.items) }

    // Further lines may be taken.
    ensures judges { ⟦<Rules<B> as Judges>⟧.judges rules.now director.new.weights (sizes_of director.new.plan) }
    ensures own { rules.now.defs ≡ director.new.rules }
    ensures rest { director.new.base ≡ None }
    ensures schema { IsOfSchema schema.now director.new.plan }
    ensures few { length names.new ≤ length names.old + 16 * length posts.now }
{
    for post in posts {
        take_next(director, rules, schema, names, post, boundary, into, steps)?;
    }
    Ok(())
}
