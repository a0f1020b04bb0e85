//! The tags of expressions, as ascending lists.
ghost use Rattle.std.specs.Prelude.{◌≡◌, OnOk};
ghost use Rattle.lx_regex.specs.Script.{merge_tags, put_tag};
ghost use Rattle.lx_tnfa.specs.TagLists.{remove_tag, remove_tags};

use lx_base::Memory;

/// Puts a tag into an ascending list.
pub(crate) fn put_tag(list: &mut Vec<u32>, number: u32) -> Result<(), Memory>
    ensures { OnOk result (list.new.items ≡ put_tag number list.old.items) }
{
    for place in 0..list.len() {
        if number <= list[place] {
            list.insert(place, number)?;
            return Ok(());
        }
    }
    list.push(number)?;
    Ok(())
}

/// Puts the tags of an ascending list into another one.
pub(crate) fn merge_tags(list: &mut Vec<u32>, tags: &[u32]) -> Result<(), Memory>
    ensures { OnOk result (list.new.items ≡ merge_tags tags.now list.old.items) }
{
    for tag in tags {
        put_tag(list, *tag)?;
    }
    Ok(())
}

/// Takes a tag out of a list, where it stands first.
fn remove_tag(list: &mut Vec<u32>, number: u32)
    ensures { list.new.items ≡ remove_tag number list.old.items }
{
    for place in 0..list.len() {
        if list[place] == number {
            list.remove(place);
            return;
        }
    }
}

/// Takes tags out of a list, one by one.
pub(crate) fn remove_tags(list: &mut Vec<u32>, tags: &[u32])
    ensures { list.new.items ≡ remove_tags tags.now list.old.items }
{
    for tag in tags {
        remove_tag(list, *tag);
    }
}
