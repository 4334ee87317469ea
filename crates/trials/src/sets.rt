// Sets of vertices, and tables of bits.
use bits::{VertexSet, row_clear, row_contains, row_count, row_insert, row_is_subset, row_union};
use std::test::Fail;

#[test]
fn members(rt: HostRuntime) {
    let mut set = VertexSet::empty();
    assert!(rt; set.is_empty());
    set.insert(3);
    set.insert(200);
    assert!(rt; set.contains(200));
    assert!(rt; set.count() == 2);
    assert!(rt; set.lowest() == Some(3));
    set.remove(3);
    assert!(rt; set.lowest() == Some(200));
}

#[test]
fn walk(rt: HostRuntime) {
    let mut set = VertexSet::empty();
    set.insert(200);
    set.insert(3);
    let mut members = set.iter();
    assert!(rt; members.next() == Some(3));
    assert!(rt; members.next() == Some(200));
    assert!(rt; members.next() == None);
}

// Two bytes: the first names 8 to 15, the second 0 to 7.
#[test]
fn bytes(rt: HostRuntime) -> Result<(), Fail> {
    let set = VertexSet::from_be_bytes(&[1, 6]).ok_or("too long")?;
    assert!(rt; set.contains(8) && set.contains(1) && set.contains(2));
    assert!(rt; set.count() == 3);
    let bytes = set.to_be_bytes();
    assert!(rt; bytes[30] == 1 && bytes[31] == 6);
    Ok(())
}

#[test]
fn rows(rt: HostRuntime) {
    let mut table = [0; 4];
    row_insert(&mut table, 2, 1, 100);
    row_union(&mut table, 2, 0, 1);
    row_clear(&mut table, 2, 1);
    assert!(rt; row_contains(&table, 2, 0, 100));
    assert!(rt; row_count(&table, 2, 1) == 0);
    assert!(rt; row_is_subset(&table, 2, 1, 0));
}
