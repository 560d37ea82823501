//! What an entry tells of itself, as the first members of an object of JSON.

ghost use Rattle.std.specs.Prelude.{Some, codes};
ghost use Rattle.data_type.specs.Array as array;
ghost use Rattle.type_tree.specs.Joined.{joined, more};
ghost use Rattle.type_report.specs.Json.{own_text, strings_text, numbers_text, shape_text, maker_text, array_text};

use data_type::array::AdsArrayInfo;
use field::AdsFieldInfo;
use report::json::{AttributeObjects, GuidOrNull};
use std::fmt;
use type_tree::marks::{Marked, Style};
use type_tree::node::{Dimensions, Node};
use wording::strings::Quoted;

/// What an entry tells of itself.
#[derive(Clone, Copy)]
pub struct Own<'a>(pub &'a Node<'a>);

impl fmt::Display for Own<'_> {
    ghost output = { λ o. Some (own_text o.0.now) };

    #[tactic(auto, unfolding(crate::specs::Json::own_text))]
    fn fmt<W: fmt::Write>(&self, f: &mut fmt::Formatter<W>) -> fmt::Result {
        let place = self.0.place;
        let strings = Strings(&self.0.info.field);
        let numbers = Numbers(self.0);
        let shape = Shape(self.0);
        let maker = Maker(&self.0.info.field);
        write!(f, "\"place\":{place},{strings},{numbers},{shape},{maker}")?;
        let guid = GuidOrNull(&self.0.info.field.guid);
        let attributes = AttributeObjects(self.0.info.field.attributes);
        write!(f, ",\"guid\":{guid},\"attributes\":[{attributes}]")
    }
}

#[derive(Clone, Copy)]
struct Strings<'a>(&'a AdsFieldInfo<'a>);

impl fmt::Display for Strings<'_> {
    ghost output = { λ s. Some (strings_text s.0.now) };

    #[tactic(auto, unfolding(crate::specs::Json::strings_text))]
    fn fmt<W: fmt::Write>(&self, f: &mut fmt::Formatter<W>) -> fmt::Result {
        let field = self.0;
        let length = field.length;
        let name = Quoted(field.name);
        let type_name = Quoted(field.type_name);
        let comment = Quoted(field.comment);
        write!(
            f,
            "\"length\":{length},\"name\":{name},\"type\":{type_name},\"comment\":{comment}"
        )
    }
}

#[derive(Clone, Copy)]
struct Numbers<'a>(&'a Node<'a>);

impl fmt::Display for Numbers<'_> {
    ghost output = { λ n. Some (numbers_text n.0.now) };

    #[tactic(auto, unfolding(crate::specs::Json::numbers_text))]
    fn fmt<W: fmt::Write>(&self, f: &mut fmt::Formatter<W>) -> fmt::Result {
        let node = self.0;
        let offset = node.info.field.offset;
        let from_start = node.offset_from_start;
        let size = node.info.field.size;
        write!(
            f,
            "\"offset\":{offset},\"offset_from_start\":{from_start},\"size\":{size}"
        )
    }
}

#[derive(Clone, Copy)]
struct Shape<'a>(&'a Node<'a>);

impl fmt::Display for Shape<'_> {
    ghost output = { λ s. Some (shape_text s.0.now) };

    #[tactic(auto, unfolding(crate::specs::Json::shape_text))]
    fn fmt<W: fmt::Write>(&self, f: &mut fmt::Formatter<W>) -> fmt::Result {
        let node = self.0;
        let marks = Marked {
            marks: node.marks,
            style: Style {
                between: ",",
                quote: "\"",
            },
        };
        let arrays = Arrays(Dimensions(node.info.arrays));
        write!(f, "\"marks\":[{marks}],\"arrays\":[{arrays}]")
    }
}

#[derive(Clone, Copy)]
struct Maker<'a>(&'a AdsFieldInfo<'a>);

impl fmt::Display for Maker<'_> {
    ghost output = { λ m. Some (maker_text m.0.now) };

    #[tactic(auto, unfolding(crate::specs::Json::maker_text))]
    fn fmt<W: fmt::Write>(&self, f: &mut fmt::Formatter<W>) -> fmt::Result {
        let field = self.0;
        let version = field.version;
        let hash = field.hash_value;
        let type_hash = field.type_hash_value;
        let type_id = field.type_id;
        let flags = field.flags.0;
        write!(
            f,
            "\"version\":{version},\"hash\":{hash},\"type_hash\":{type_hash},\"type_id\":{type_id},\"flags\":{flags}"
        )
    }
}

// Array records as objects, with commas between them.
#[derive(Clone, Copy)]
struct Arrays<'a>(Dimensions<'a>);

impl fmt::Display for Arrays<'_> {
    ghost output = { λ a. Some (joined (codes ",") array_text (array.left a.0.0)) };

    fn fmt<W: fmt::Write>(&self, f: &mut fmt::Formatter<W>) -> fmt::Result {
        let mut rest = self.0;
        match rest.next() {
            None => Ok(()),
            Some(first) => {
                let first = Dimension(first);
                let more = MoreArrays(rest);
                write!(f, "{first}{more}")
            }
        }
    }
}

// Those behind the first, with a comma before each.
#[derive(Clone, Copy)]
struct MoreArrays<'a>(Dimensions<'a>);

impl fmt::Display for MoreArrays<'_> {
    ghost output = { λ a. Some (more (codes ",") array_text (array.left a.0.0)) };

    fn fmt<W: fmt::Write>(&self, f: &mut fmt::Formatter<W>) -> fmt::Result {
        for one in self.0 {
            let one = Dimension(one);
            write!(f, ",{one}")?;
        }
        Ok(())
    }
}

#[derive(Clone, Copy)]
struct Dimension(AdsArrayInfo);

impl fmt::Display for Dimension {
    ghost output = { λ d. Some (array_text d.0) };

    fn fmt<W: fmt::Write>(&self, f: &mut fmt::Formatter<W>) -> fmt::Result {
        let lower = self.0.lower_bound.cast_signed();
        let elements = self.0.elements;
        write!(f, "{{\"lower_bound\":{lower},\"elements\":{elements}}}")
    }
}
