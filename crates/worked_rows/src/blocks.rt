//! Worked blocks of rows.

use tab_block::Block;

#[test]
fn rows_are_added_read_and_written(rt: HostRuntime) {
    let mut block = Block::new(rt.alloc());
    assert_eq!(rt; block.rows(), 0);
    assert_eq!(rt; block.width(), 1);
    assert_eq!(rt; block.spare(), 0);
    assert!(rt; matches!(block.reserve(2, 3), Ok(())));
    block.clear(2);
    assert!(rt; block.spare() >= 3);
    block.add_row(&[1, 2]);
    assert!(rt; block.spare() >= 1);
    block.add_row(&[3, 4]);
    assert_eq!(rt; block.rows(), 2);
    if let Some(first) = block.row_mut(0).first_mut() {
        *first = 9;
    }
    assert_eq!(rt; block.rows(), 2);
    assert!(rt; block.row(0) == [9, 2].as_slice());
    assert!(rt; block.row(1) == [3, 4].as_slice());
}

#[test]
fn the_rows_of_the_largest_stage_program_are_reserved_twice(rt: HostRuntime) {
    let mut block = Block::new(rt.alloc());
    for _ in 0..2 {
        assert!(rt; matches!(block.reserve(1250, 792), Ok(())));
        assert_eq!(rt; block.spare(), 1250);
        assert_eq!(rt; block.width(), 792);
    }
    drop(block);
    let mut other = Block::new(rt.alloc());
    assert!(rt; matches!(other.reserve(1, 1), Ok(())));
    assert_eq!(rt; other.spare(), 1);
}
