//! The lines of a text, and the labels of them all.
ghost use Rattle.std.specs.Prelude.{◌≡◌, ◌++◌, [], map, IfOk, OnOk};
ghost use Rattle.std.specs.List.{position, before_first, after_first};
ghost use Rattle.std.specs.Option.{option_copied};
ghost use Rattle.spur_asm.specs.Bytes.{is_feed};
ghost use Rattle.spur_asm.specs.Context.{first_context, labels_from, onto_labels, placed_of};
ghost use Rattle.spur_asm.specs.Text.{lines_of};

use crate::head;
use crate::label::Label;
use crate::statement::Context;
use std::alloc::{AllocError, Global};

/// The place of the first line feed. `None` where there is none.
fn first_feed(text: &[u8]) -> Option<usize>
    ensures { result ≡ position is_feed text.now }
{
    text.iter().position(|b| *b == b'\n')
}

/// The first line of a text without its line feed, and what stands behind that. A text without a line feed is one
/// line, with nothing behind it.
pub fn split_line(text: &[u8]) -> (&[u8], &[u8])
    ensures line { result.0.now ≡ before_first is_feed text.now }
    ensures rest { result.1.now ≡ after_first is_feed text.now }
{
    match first_feed(text) {
        Some(end) => (&text[..end], &text[end + 1..]),
        None => text.split_at(text.len()),
    }
}

/// Puts the label of a line that stands in this context behind the others, if the line has one.
fn note<'a>(
    labels: &mut Vec<Label<'a>>,
    context: Context,
    name: Option<&'a [u8]>,
) -> Result<(), AllocError>
    ensures { OnOk result (map placed_of labels.new.items
        ≡ map placed_of labels.old.items ++ onto_labels context (option_copied name.entry) []) }
{
    if let Some(name) = name {
        labels.push(Label {
            board: context.boards,
            name,
            place: context.codes,
        })?;
    }
    Ok(())
}

/// The labels of all lines of a text, in their order.
pub fn labels<'a>(alloc: Global, text: &'a [u8]) -> Result<Vec<Label<'a>>, AllocError>
    ensures { IfOk result (λ labels. map placed_of labels.items ≡ labels_from first_context (lines_of text.now)) }
{
    let mut labels = Vec::new(alloc);
    let mut context = Context::first();
    let mut rest = text;
    while !rest.is_empty() {
        let (line, behind) = split_line(rest);
        let (label, sort) = head::head(line);
        note(&mut labels, context, label)?;
        context = context.after(label, sort);
        rest = behind;
    }
    Ok(labels)
}
