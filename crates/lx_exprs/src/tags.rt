//! Tags, looked up by their names.
ghost use Rattle.std.specs.Prelude.{◌≡◌, ◌<◌, ◌^◌, ◌++◌, ◌∷◌, [], ℕ, List, IfOk, OnOk, drop, is_some, length, not};
ghost use Rattle.std.specs.List.{flat_map, list_any};
ghost use Rattle.std.specs.Map.{lookup};
ghost use Rattle.std.specs.Str.{bytes_eq};
ghost use Rattle.lx_exprs.specs.Checks.{is_tag_among, repeated_tag};
ghost use Rattle.lx_exprs.specs.Defined.{kept};
ghost use Rattle.lx_regex.specs.declared.rules.Tag.{Tag as tag_type};

use crate::values::sum;
use indexmap::IndexMap;
use lx_base::{ByteText, Fault, Memory, Pos};
use lx_regex::Tag;
use std::alloc::Global;
use std::marker::Model;
use std::mem::replace;
use std::rc::Rc;

/// How many tags are copied rather than shared, at most.
const MOST_COPIED: usize = 64;

/// Tags, in order, and an index of their names. Contracts see the tags.
pub struct TagNames {
    tags: Vec<Tag>,
    index: IndexMap<Vec<u8>, ()>,
}

impl Drop for TagNames {
    fn drop(self) {
        let Self { tags: _, index: _ } = self;
    }
}

impl Model for TagNames {
    ghost Value = { List tag_type };

    ghost view = { λ held. held.tags.items };

    ghost invariant = { λ held. (name : List ℕ) → is_some (lookup (λ key. bytes_eq name key.items) held.index.entries) ≡ is_tag_among name held.tags.items };
}

impl TagNames {
    /// No tags. It takes no memory.
    pub fn new(alloc: Global) -> TagNames
        ensures { result ≡ [] }
    {
        TagNames {
            tags: Vec::new(alloc),
            index: IndexMap::new(alloc),
        }
    }

    /// How many tags there are.
    pub fn len(&self) -> usize
        ensures count { result ≡ length self.now }
        ensures few { result < 2 ^ 63 }
    {
        self.tags.len()
    }

    /// Whether one of them has a name.
    pub fn contains(&self, name: &[u8]) -> bool
        ensures { result ≡ is_tag_among name.now self.now }
    {
        self.index.get(name).is_some()
    }

    /// Appends a tag with a copy of a name; `many` says whether it has all its values.
    pub fn push(&mut self, alloc: Global, name: &[u8], many: bool) -> Result<(), Memory>
        ensures { OnOk result (self.new ≡ self.old ++ record { name = name.now; many = many } ∷ []) }
    {
        let key = Vec::from_slice(alloc, name)?;
        let name = ByteText::copy_of(alloc, name)?;
        self.tags.push(Tag { name, many })?;
        if self.index.insert(key, ()).is_err() {
            let _last = self.tags.pop();
            return Err(Memory);
        }
        Ok(())
    }

    /// Appends copies of tags.
    pub fn push_all(&mut self, alloc: Global, more: &[Tag]) -> Result<(), Memory>
        ensures { OnOk result (self.new ≡ self.old ++ more.now) }
    {
        for tag in more {
            self.push(alloc, tag.name.as_slice(), tag.many)?;
        }
        Ok(())
    }

    /// The tags.
    pub fn tags(&self) -> &[Tag]
        ensures { result.now ≡ self.now }
    {
        self.tags.as_slice()
    }
}

/// Tags in shared segments, each with its index. Contracts see all tags, in order.
#[derive(Drop)]
pub struct SharedTags {
    segments: Vec<Rc<TagNames>>,
    count: u64,
}

impl Model for SharedTags {
    ghost Value = { List tag_type };

    ghost view = { λ held. flat_map (λ tags. tags.value) held.segments.items };

    ghost invariant = { λ held. held.count ≡ kept (length (flat_map (λ tags. tags.value) held.segments.items)) };
}

impl SharedTags {
    /// No tags. It takes no memory.
    pub fn new(alloc: Global) -> SharedTags
        ensures { result ≡ [] }
    {
        SharedTags {
            segments: Vec::new(alloc),
            count: 0,
        }
    }

    /// How many tags there are; 2^40 stands for itself and for more.
    pub fn len(&self) -> u64
        ensures { result ≡ kept (length self.now) }
    {
        self.count
    }

    /// The segments.
    pub fn segments(&self) -> &[Rc<TagNames>]
        ensures { flat_map (λ tags. tags.value) result.now ≡ self.now }
    {
        self.segments.as_slice()
    }

    /// Whether one of them has a name.
    pub fn contains(&self, name: &[u8]) -> bool
        ensures { result ≡ is_tag_among name.now self.now }
    {
        let segments = self.segments();
        for segment in segments {
            if segment.contains(name) {
                return true;
            }
        }
        false
    }

    /// Appends a segment.
    fn push(&mut self, segment: Rc<TagNames>) -> Result<(), Memory>
        ensures { OnOk result (self.new ≡ self.old ++ segment.value) }
    {
        let count = sum(self.count, segment.len() as u64);
        self.segments.push(segment)?;
        self.count = count;
        Ok(())
    }

    /// Appends the segments of others.
    pub fn append(&mut self, more: &SharedTags) -> Result<(), Memory>
        ensures { OnOk result (self.new ≡ self.old ++ more.now) }
    {
        let segments = more.segments();
        for segment in segments {
            self.push(segment.clone()?)?;
        }
        Ok(())
    }

    /// These, and a segment behind them.
    fn joined(self, alloc: Global, segment: Rc<TagNames>) -> Result<SharedTags, Memory>
        ensures { IfOk result (λ all. all ≡ self ++ segment.value) }
    {
        let SharedTags { segments, count } = self;
        let count = sum(count, segment.len() as u64);
        let mut segments = segments;
        join(alloc, &mut segments, segment)?;
        Ok(SharedTags { segments, count })
    }

    /// These, and other tags behind them.
    fn with(self, alloc: Global, tags: TagNames) -> Result<SharedTags, Memory>
        ensures { IfOk result (λ all. all ≡ self ++ tags) }
    {
        if tags.len() == 0 {
            return Ok(self);
        }
        self.joined(alloc, Rc::new(alloc, tags)?)
    }

    /// Whether any of some tags has the name of one of them.
    fn has_any(&self, tags: &[Tag]) -> bool
        ensures { result ≡ list_any (λ (tag : tag_type). is_tag_among tag.name self.now) tags.now }
    {
        for tag in tags {
            if self.contains(tag.name.as_slice()) {
                return true;
            }
        }
        false
    }

    /// These, and others behind them.
    fn with_all(self, alloc: Global, more: &SharedTags) -> Result<SharedTags, Memory>
        ensures { IfOk result (λ all. all ≡ self ++ more.now) }
    {
        let mut all = self;
        let segments = more.segments();
        for segment in segments {
            all = all.joined(alloc, segment.clone()?)?;
        }
        Ok(all)
    }

    /// Appends copies of the tags to others.
    pub fn copy_to(&self, alloc: Global, tags: &mut TagNames) -> Result<(), Memory>
        ensures { OnOk result (tags.new ≡ tags.old ++ self.now) }
    {
        let segments = self.segments();
        for segment in segments {
            tags.push_all(alloc, segment.tags())?;
        }
        Ok(())
    }
}

/// Copies of tags, and of others behind them.
fn both_tags(alloc: Global, front: &[Tag], back: &[Tag]) -> Result<Rc<TagNames>, Memory>
    ensures { IfOk result (λ tags. tags.value ≡ front.now ++ back.now) }
{
    let mut tags = TagNames::new(alloc);
    tags.push_all(alloc, front)?;
    tags.push_all(alloc, back)?;
    Ok(Rc::new(alloc, tags)?)
}

/// Appends a segment. It is joined with the last one where both are short.
fn join(
    alloc: Global,
    segments: &mut Vec<Rc<TagNames>>,
    segment: Rc<TagNames>,
) -> Result<(), Memory>
    ensures { OnOk result (flat_map (λ tags. tags.value) segments.new.items ≡ flat_map (λ tags. tags.value) segments.old.items ++ segment.value) }
{
    let Some(last) = segments.pop() else {
        segments.push(segment)?;
        return Ok(());
    };
    if last.len() + segment.len() > MOST_COPIED {
        segments.push(last)?;
        segments.push(segment)?;
        return Ok(());
    }
    let both = both_tags(alloc, last.tags(), segment.tags())?;
    segments.push(both)?;
    Ok(())
}

/// The tags of an expression: those that are shared with definitions, and its own behind them. Contracts see all of them, in order.
#[derive(Drop)]
pub struct SeenTags {
    shared: SharedTags,
    own: TagNames,
}

impl Model for SeenTags {
    ghost Value = { List tag_type };

    ghost view = { λ seen. seen.shared ++ seen.own };
}

impl SeenTags {
    /// No tags. It takes no memory.
    pub fn new(alloc: Global) -> SeenTags
        ensures { result ≡ [] }
    {
        SeenTags {
            shared: SharedTags::new(alloc),
            own: TagNames::new(alloc),
        }
    }

    /// These tags, with no others behind them so far. It takes no memory.
    pub fn behind(alloc: Global, shared: SharedTags) -> SeenTags
        ensures { result ≡ shared }
    {
        SeenTags {
            shared,
            own: TagNames::new(alloc),
        }
    }

    /// How many tags there are; 2^40 stands for itself and for more.
    pub fn len(&self) -> u64
        ensures { result ≡ kept (length self.now) }
    {
        sum(self.shared.len(), self.own.len() as u64)
    }

    /// Whether one of them has a name.
    pub fn contains(&self, name: &[u8]) -> bool
        ensures { result ≡ is_tag_among name.now self.now }
    {
        self.shared.contains(name) || self.own.contains(name)
    }

    /// Appends a tag with a copy of a name; `many` says whether it has all its values.
    pub fn push(&mut self, alloc: Global, name: &[u8], many: bool) -> Result<(), Memory>
        ensures { OnOk result (self.new ≡ self.old ++ record { name = name.now; many = many } ∷ []) }
    {
        self.own.push(alloc, name, many)
    }

    /// Appends the tags of a definition. They are copied where they are few, and else shared.
    pub fn add(&mut self, alloc: Global, more: &SharedTags) -> Result<(), Memory>
        ensures { OnOk result (self.new ≡ self.old ++ more.now) }
    {
        if more.len() <= MOST_COPIED as u64 {
            return more.copy_to(alloc, &mut self.own);
        }
        let own = replace(&mut self.own, TagNames::new(alloc));
        let shared = replace(&mut self.shared, SharedTags::new(alloc));
        let shared = shared.with(alloc, own)?;
        self.shared = shared.with_all(alloc, more)?;
        Ok(())
    }

    /// Whether none of them has the name of a definition's tag.
    fn is_apart(&self, tags: &SharedTags) -> bool
        ensures { result ≡ not (list_any (λ (tag : tag_type). is_tag_among tag.name tags.now) self.now) }
    {
        let segments = self.shared.segments();
        for segment in segments {
            if tags.has_any(segment.tags()) {
                return false;
            }
        }
        !tags.has_any(self.own.tags())
    }

    /// The same tags, all of them to be shared.
    pub fn into_shared(self, alloc: Global) -> Result<SharedTags, Memory>
        ensures { IfOk result (λ tags. tags ≡ self) }
    {
        let SeenTags { shared, own } = self;
        shared.with(alloc, own)
    }
}

/// The name of a tag, behind its mark.
pub fn tag_name(text: &[u8]) -> &[u8]
    ensures { result.now ≡ drop 1 text.now }
{
    match text.split_first() {
        Some((_, name)) => name,
        None => text,
    }
}

/// The fault of the first of some tags that was seen before.
fn repeated_among(
    alloc: Global,
    at: Pos,
    tags: &[Tag],
    seen: &SeenTags,
) -> Result<Option<Fault>, Memory>
    ensures { IfOk result (λ found. found ≡ repeated_tag at tags.now seen.now) }
{
    for tag in tags {
        if seen.contains(tag.name.as_slice()) {
            let name = ByteText::copy_of(alloc, tag.name.as_slice())?;
            return Ok(Some(Fault::DuplicateTag { at, name }));
        }
    }
    Ok(None)
}

/// The fault of the first tag of a definition that was seen before. Where fewer were seen than the definition has, they are looked
/// up in it, and its own are gone through only if one is found.
pub fn repeated_tag(
    alloc: Global,
    at: Pos,
    tags: &SharedTags,
    seen: &SeenTags,
) -> Result<Option<Fault>, Memory>
    ensures { IfOk result (λ found. found ≡ repeated_tag at tags.now seen.now) }
{
    if seen.len() < tags.len() && seen.is_apart(tags) {
        return Ok(None);
    }
    let segments = tags.segments();
    for segment in segments {
        let found = repeated_among(alloc, at, segment.tags(), seen)?;
        if found.is_some() {
            return Ok(found);
        }
    }
    Ok(None)
}
