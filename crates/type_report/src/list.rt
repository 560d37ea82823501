//! `type --json`: a line of JSON a data type, its members in it.

ghost use Rattle.std.specs.Prelude.{◌≡◌, ◌++◌, OnOk, IfOk, codes};
ghost use Rattle.std.specs.List.{flat_map};
ghost use Rattle.std.specs.Io.KnownBytes.{Appends};
ghost use Rattle.data_type.specs.DataType.{type_of};
ghost use Rattle.walk.specs.Pieces.{pieces};
ghost use Rattle.type_tree.specs.Counts.{counts_of};
ghost use Rattle.type_tree.specs.Joined.{joined, more};
ghost use Rattle.type_report.specs.Json.{own_text, node_text, type_line, entry_line};
ghost use Rattle.type_tree.specs.Node.{members_left};

use crate::json::Own;
use data_type::{AdsDataTypeInfo, DataTypes};
use refusal::{DEEPEST, Mode};
use report::Upload;
use report::json::RefusedEntry;
use std::io;
use std::io::Write;
use type_tree::Counts;
use type_tree::node::{Members, Node};
use walk::Piece;

/// Writes a line for each entry of an upload.
pub fn list<W: Write>(upload: &Upload<'_>, out: &mut W) -> io::Result<Counts>
    ensures text { OnOk result (Appends (W.contents out.old) (W.contents out.new) (flat_map (entry_line upload.now.mode) (pieces (type_of upload.now.mode) upload.now.bytes))) }
    ensures counts { IfOk result (λ counts. counts ≡ counts_of (pieces (type_of upload.now.mode) upload.now.bytes)) }
{
    let mut counts = Counts::new();
    for piece in DataTypes::new(upload.bytes, upload.mode) {
        counts.count(&piece.answer);
        write_line(&piece, upload.mode, out)?;
    }
    Ok(counts)
}

#[tactic(auto, unfolding(crate::specs::Json::entry_line))]
fn write_line<W: Write>(
    piece: &Piece<AdsDataTypeInfo<'_>>,
    mode: Mode,
    out: &mut W,
) -> io::Result<()>
    ensures { OnOk result (Appends (W.contents out.old) (W.contents out.new) (entry_line mode piece.now)) }
{
    let place = piece.start;
    match &piece.answer {
        Ok(info) => write_type(&Node::root(place, *info), mode, out),
        Err(why) => {
            let entry = RefusedEntry { place, why };
            writeln!(out, "{entry}")
        }
    }
}

/// Writes the line of one data type.
pub fn write_type<W: Write>(root: &Node<'_>, mode: Mode, out: &mut W) -> io::Result<()>
    ensures { OnOk result (Appends (W.contents out.old) (W.contents out.new) (type_line mode root.now)) }
{
    write_node(root, mode, DEEPEST, out)?;
    write_text("\n", out)?;
    Ok(())
}

// What stands before the objects of its sub-items.
fn write_own<W: Write>(node: &Node<'_>, out: &mut W) -> io::Result<()>
    ensures { OnOk result (Appends (W.contents out.old) (W.contents out.new) (codes "{" ++ (own_text node.now ++ codes ",\"members\":["))) }
{
    let own = Own(node);
    write!(out, "{{{own},\"members\":[")
}

// An object with the objects of its sub-items in it, so many levels in all.
#[cycle(write_tree)]
fn write_node<W: Write>(node: &Node<'_>, mode: Mode, levels: usize, out: &mut W) -> io::Result<()>
    ensures { OnOk result (Appends (W.contents out.old) (W.contents out.new) (node_text mode levels node.now)) }
{
    if levels == 0 {
        return Ok(());
    }
    write_own(node, out)?;
    write_members(node.members(mode), mode, levels - 1, out)?;
    write_text("]}", out)?;
    Ok(())
}

fn write_text<W: Write>(text: &str, out: &mut W) -> io::Result<()>
    ensures { OnOk result (Appends (W.contents out.old) (W.contents out.new) text.now) }
{
    write!(out, "{text}")
}

// The objects of some members, with commas between them.
#[cycle(write_tree)]
fn write_members<W: Write>(
    members: Members<'_>,
    mode: Mode,
    levels: usize,
    out: &mut W,
) -> io::Result<()>
    ensures { OnOk result (Appends (W.contents out.old) (W.contents out.new) (joined (codes ",") (node_text mode levels) (members_left members.entry))) }
{
    let mut rest = members;
    match rest.next() {
        None => Ok(()),
        Some(first) => {
            write_node(&first, mode, levels, out)?;
            write_more(rest, mode, levels, out)?;
            Ok(())
        }
    }
}

// Those behind the first, with a comma before each.
#[cycle(write_tree)]
fn write_more<W: Write>(
    members: Members<'_>,
    mode: Mode,
    levels: usize,
    out: &mut W,
) -> io::Result<()>
    ensures { OnOk result (Appends (W.contents out.old) (W.contents out.new) (more (codes ",") (node_text mode levels) (members_left members.entry))) }
{
    for member in members {
        write_text(",", out)?;
        write_node(&member, mode, levels, out)?;
    }
    Ok(())
}
