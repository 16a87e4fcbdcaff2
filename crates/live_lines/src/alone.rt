// For callers that count no steps.
ghost use Rattle.std.specs.Prelude.{◌≡◌, ◌≤◌, ◌<◌, ◌+◌, ◌*◌, None, false, OnErr, OnOk, All, length};
ghost use Rattle.change_feed.specs.Feeds.{is_stop};
ghost use Rattle.plan_changes.specs.Fits.{IsOfSchema};
ghost use Rattle.plan_facts.specs.Limits.{field_limit};
ghost use Rattle.plan_rules.specs.Range.{sizes_of};
ghost use Rattle.live_lines.specs.Taking.{Took, TookFront, feed_on, grounds, searched, taken_at};

use crate::taking::take_lines;
use plan_changes::Post;
use plan_facts::{Memory, Names, Schema};
use plan_reports::Line;
use plan_rules::{Book, Judges, Rules, Steps};
use score_director::Director;
use std::marker::Brand;
use std::sync::ledger::{Blank, Ledger};

/// What `take_lines` does, for a caller that counts no steps.
pub fn take_alone<B: Book>(
    director: &mut Director<B>,
    rules: &Rules<B>,
    schema: &Schema,
    names: &mut Names,
    posts: &[Post],
    boundary: u32,
    into: &mut Vec<Line>,
) -> Result<(), Memory>
    requires judges { ⟦<Rules<B> as Judges>⟧.judges rules.now director.old.weights (sizes_of director.old.plan) }
    requires own { rules.now.defs ≡ director.old.rules }
    requires rest { director.old.base ≡ None }
    requires schema { IsOfSchema schema.now director.old.plan }
    requires room { length names.old + 16 * length posts.now ≤ field_limit }
    requires lines { All (λ post. is_stop post.body ≡ false) posts.now }
    ensures took { let feed = feed_on (grounds schema.now rules.now.defs rules.now.caps) in
        let before = searched director.old names.old in
        let after = searched director.new names.new in
        OnOk result (Took feed (taken_at boundary posts.now) before after into.old.items into.new.items) }
    ensures front { let feed = feed_on (grounds schema.now rules.now.defs rules.now.caps) in
        let before = searched director.old names.old in
        let after = searched director.new names.new in
        OnErr result (TookFront feed (taken_at boundary posts.now) before after into.old.items into.new.items) }

    // Further lines may be taken.
    ensures judges { ⟦<Rules<B> as Judges>⟧.judges rules.now director.new.weights (sizes_of director.new.plan) }
    ensures own { rules.now.defs ≡ director.new.rules }
    ensures rest { director.new.base ≡ None }
    ensures schema { IsOfSchema schema.now director.new.plan }
    ensures few { length names.new ≤ length names.old + 16 * length posts.now }
{
    take_from::<B, Brand>(
        director,
        rules,
        schema,
        names,
        posts,
        boundary,
        into,
        Blank::new(1),
    )
}

/// With a counter of its own.
fn take_from<B: Book, L: Ledger>(
    director: &mut Director<B>,
    rules: &Rules<B>,
    schema: &Schema,
    names: &mut Names,
    posts: &[Post],
    boundary: u32,
    into: &mut Vec<Line>,
    blank: Blank,
) -> Result<(), Memory>
    requires name { blank.name ≡ L.name }
    requires parts { blank.parts ≡ L.parts }
    requires some { 0 < L.parts }
    requires judges { ⟦<Rules<B> as Judges>⟧.judges rules.now director.old.weights (sizes_of director.old.plan) }
    requires own { rules.now.defs ≡ director.old.rules }
    requires rest { director.old.base ≡ None }
    requires schema { IsOfSchema schema.now director.old.plan }
    requires room { length names.old + 16 * length posts.now ≤ field_limit }
    requires lines { All (λ post. is_stop post.body ≡ false) posts.now }
    ensures took { let feed = feed_on (grounds schema.now rules.now.defs rules.now.caps) in
        let before = searched director.old names.old in
        let after = searched director.new names.new in
        OnOk result (Took feed (taken_at boundary posts.now) before after into.old.items into.new.items) }
    ensures front { let feed = feed_on (grounds schema.now rules.now.defs rules.now.caps) in
        let before = searched director.old names.old in
        let after = searched director.new names.new in
        OnErr result (TookFront feed (taken_at boundary posts.now) before after into.old.items into.new.items) }
    ensures judges { ⟦<Rules<B> as Judges>⟧.judges rules.now director.new.weights (sizes_of director.new.plan) }
    ensures own { rules.now.defs ≡ director.new.rules }
    ensures rest { director.new.base ≡ None }
    ensures schema { IsOfSchema schema.now director.new.plan }
    ensures few { length names.new ≤ length names.old + 16 * length posts.now }
{
    let mut steps: Steps<L> = Steps::new(blank);
    take_lines(
        director, rules, schema, names, posts, boundary, into, &mut steps,
    )
}
