use lk_base::{Boxed, CellStep, Code, Files, Name, NameFault, Seq, Status};
use std::alloc::Global;
use std::process::Abort;
use std::test::Fail;

/// A list that leads back to itself through `Seq`.
#[derive(Drop)]
struct Tree {
    kids: Seq<Tree>,
}

/// One that does through `Boxed`.
#[derive(Drop)]
enum Chain {
    End,
    Link(Boxed<Chain>),
}

/// A name that has these bytes, and whose copy is equal.
fn check_name(rt: &impl Abort, alloc: Global, bytes: &[u8]) -> Result<(), Fail> {
    let name = Name::from_bytes(alloc, bytes)?;
    let copy = name.copy()?;
    assert!(rt; copy == name && copy.bytes() == bytes);
    Ok(())
}

#[test]
fn a_name_has_at_most_255_bytes(rt: HostRuntime) -> Result<(), Fail> {
    let bytes = [b'a'; 256];
    let refused = Name::from_bytes(rt.alloc(), &bytes).err();
    assert!(rt; refused == Some(NameFault::TooLong));
    check_name(&rt, rt.alloc(), &bytes[1..])
}

/// Puts a name into the files, where it has this number.
fn put(
    rt: &impl Abort,
    alloc: Global,
    files: &mut Files,
    text: &str,
    number: u32,
) -> Result<(), Fail> {
    assert!(rt; files.len() < 4);
    let name = Name::from_bytes(alloc, text.as_bytes())?;
    let found = files.put(name)?;
    assert!(rt; found == number);
    Ok(())
}

/// Puts names into the files, of which one is there already.
fn put_names(rt: &impl Abort, alloc: Global, files: &mut Files) -> Result<(), Fail> {
    put(rt, alloc, files, "a.c", 0)?;
    put(rt, alloc, files, "b.c", 1)?;
    put(rt, alloc, files, "a.c", 0)?;
    put(rt, alloc, files, "", 2)
}

/// Whether the file with a number has this name.
fn is_named(files: &Files, number: u32, bytes: &[u8]) -> bool {
    match files.get(number) {
        Some(name) => name.bytes() == bytes,
        None => false,
    }
}

#[test]
fn a_file_name_keeps_its_first_number(rt: HostRuntime) -> Result<(), Fail> {
    let mut files = Files::new(rt.alloc());
    let names = put_names(&rt, rt.alloc(), &mut files);
    assert!(rt; is_named(&files, 1, b"b.c") && files.get(3).is_none());
    names
}

#[test]
fn codes_and_statuses_have_their_numbers(rt: HostRuntime) -> Result<(), Fail> {
    assert!(rt; Code::Undeclared.number() == 20 && Status::NoMemory.number() == 6);
    assert!(rt; Code::TooManyLabels.word() == "TooManyLabels");
    Ok(())
}

#[test]
fn a_tree_holds_itself_in_a_list(rt: HostRuntime) -> Result<(), Fail> {
    let mut kids = Seq::new(Vec::new(rt.alloc()));
    let pushed = kids.push(Tree {
        kids: Seq::new(Vec::new(rt.alloc())),
    });
    let tree = Tree { kids };
    assert!(rt; pushed.is_ok() && tree.kids.len() == 1);
    Ok(())
}

/// Whether a chain has one link.
fn has_one_link(chain: &Chain) -> bool {
    match chain {
        Chain::Link(below) => matches!(below.get(), Chain::End),
        Chain::End => false,
    }
}

#[test]
fn a_chain_holds_itself_in_a_box(rt: HostRuntime) -> Result<(), Fail> {
    let chain = Chain::Link(Boxed::new(rt.alloc(), Chain::End)?);
    assert!(rt; has_one_link(&chain));
    Ok(())
}

#[test]
fn a_list_is_read_and_changed(rt: HostRuntime) -> Result<(), Fail> {
    let mut list = Seq::new(vec![in rt.alloc(); 1u32, 2, 3]?);
    assert!(rt; list.get(1) == Some(&2) && list.len() == 3);
    assert!(rt; list.pop() == Some(3) && list.len() == 2);
    list.set(0, 7);
    assert!(rt; list.into_vec().as_slice() == [7, 2].as_slice());
    Ok(())
}

#[test]
fn a_box_gives_what_is_in_it(rt: HostRuntime) -> Result<(), Fail> {
    let boxed = Boxed::new(rt.alloc(), 5u8)?;
    assert!(rt; boxed.into_inner() == 5);
    Ok(())
}

#[test]
fn an_element_of_a_list_is_exchanged(rt: HostRuntime) -> Result<(), Fail> {
    let mut list = Seq::new(vec![in rt.alloc(); 1u32, 2]?);
    assert!(rt; list.push_or_back(3).is_ok() && list.len() == 3);
    assert!(rt; list.replace(1, 5) == 2);
    assert!(rt; list.list() == [1, 5, 3].as_slice());
    Ok(())
}

#[test]
fn a_step_leads_to_a_member_or_an_element(rt: HostRuntime) -> Result<(), Fail> {
    assert!(rt; CellStep::Field(2).number() == 2 && CellStep::Index(7).number() == 7);
    assert!(rt; CellStep::default() == CellStep::Field(0));
    Ok(())
}
