// Rules put in, taken out and moved in place: the slots after them move by one. Each is an edit, and the edit count rises by one.
#![tactic(auto)]

ghost use Rattle.std.specs.Prelude.{◌≡◌, ◌+◌, ◌-◌, ◌*◌, ◌<◌, ◌≤◌, length};
ghost use Rattle.rules.specs.Limits.{max_rules, max_edits};
ghost use Rattle.image.specs.State.{relist, insert_at, remove_at, relocated};
ghost use Rattle.image.specs.Image.{image_size, count_of, last_of, edits_of, ledger_of, laid};

use image::{HEAD, SLOT};
use rules::Numbered;

// A rule more, before place `p`; `last` is the last number issued afterwards.
pub fn insert(image: &mut [u8], p: usize, x: Numbered, last: u16)
    requires { (image_size ≤ length image.old) × ((p ≤ count_of image.old) × ((count_of image.old < max_rules) × (edits_of image.old < max_edits))) }
    ensures { image.new ≡ laid (relist (ledger_of image.old) (insert_at p x (ledger_of image.old).list) last) image.old }
{
    let edits = image::edit_count(image) + 1;
    let count = image::rule_count(image);
    let at = HEAD + SLOT * p;
    image.copy_within(at..HEAD + SLOT * count, at + SLOT);
    image::put_rule(image, p, x);
    image::put_head(image, count + 1, last, edits);
}

// The rule at place `k` leaves.
pub fn remove(image: &mut [u8], k: usize)
    requires { (image_size ≤ length image.old) × ((k < count_of image.old) × ((count_of image.old ≤ max_rules) × (edits_of image.old < max_edits))) }
    ensures { image.new ≡ laid (relist (ledger_of image.old) (remove_at k (ledger_of image.old).list) (last_of image.old)) image.old }
{
    let edits = image::edit_count(image) + 1;
    let count = image::rule_count(image);
    let last = image::last_issued(image);
    let at = HEAD + SLOT * k;
    image.copy_within(at + SLOT..HEAD + SLOT * count, at);
    image::put_head(image, count - 1, last, edits);
}

// The rule at place `k` is put before place `p` of the rest.
pub fn relocate(image: &mut [u8], k: usize, p: usize)
    requires { (image_size ≤ length image.old) × ((k < count_of image.old) × ((p < count_of image.old) × ((count_of image.old ≤ max_rules) × (edits_of image.old < max_edits)))) }
    ensures { image.new ≡ laid (relist (ledger_of image.old) (relocated k p (ledger_of image.old).list) (last_of image.old)) image.old }
{
    let edits = image::edit_count(image) + 1;
    let count = image::rule_count(image);
    let last = image::last_issued(image);
    let x = image::rule_at(image, k);
    let from = HEAD + SLOT * k;
    let to = HEAD + SLOT * p;
    if k < p {
        image.copy_within(from + SLOT..to + SLOT, from);
    } else {
        image.copy_within(to..from, to + SLOT);
    }
    image::put_rule(image, p, x);
    image::put_head(image, count, last, edits);
}
