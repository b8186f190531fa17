//! An index of corners by bounding boxes.

ghost use Rattle.std.specs.Prelude.{◌≡◌, ℕ, pos, ◌<ℤ◌, ◌<◌, ◌≤◌, ◌/◌, map, length, IfOk, IsTrue, IsFalse, Some};
ghost use Rattle.triangulation.specs.Clippings.{HoldsCorner};
ghost use Rattle.triangulation.specs.CornerIndexes.{IsInBox, AreBlocksOf, AreGroupsOf, IsIndexOf, IsClearAt};
ghost use Rattle.triangulation.specs.Triangulations.{triangle_area, IsInTriangle};

use crate::bounds::BoundingBox;
use crate::points::{Point, Triangle, is_in_triangle};
use arena_ptr::PtrKey;
use chain_traits::ChainArenaTrait;
use polygons::Polygons;
use std::alloc::{AllocError, Global};

// Corners in a block, and blocks in a group.
const BLOCK: usize = 32;

#[derive(Drop)]
pub struct CornerIndex<P: PtrKey> {
    pointers: Vec<P>,
    blocks: Vec<BoundingBox>,
    groups: Vec<BoundingBox>,
}

impl<P: PtrKey> CornerIndex<P> {
    // `corners` are in the order of `pointers`.
    pub fn new(
        alloc: Global,
        corners: &[Point],
        pointers: Vec<P>,
    ) -> Result<CornerIndex<P>, AllocError>
        ensures { IfOk result (λ index. (index.pointers ≡ pointers)
            × AreBlocksOf corners.now index.blocks.items
            × AreGroupsOf index.blocks.items index.groups.items) }
    {
        let blocks = blocks_of(alloc, corners)?;
        let groups = groups_of(alloc, &blocks)?;
        Ok(CornerIndex {
            pointers,
            blocks,
            groups,
        })
    }
}

fn block_range(block: usize, len: usize) -> (usize, usize)
    ensures ordered { result.0 ≤ result.1 }
    ensures within { result.1 ≤ len }
    ensures all { (n : ℕ) → n < len → n / 32 ≡ block → (result.0 ≤ n) × (n < result.1) }
{
    let first = block.saturating_mul(BLOCK).min(len);
    (first, first.saturating_add(BLOCK).min(len))
}

fn blocks_of(alloc: Global, corners: &[Point]) -> Result<Vec<BoundingBox>, AllocError>
    ensures { IfOk result (λ blocks. AreBlocksOf corners.now blocks.items) }
{
    let number = corners.len() / BLOCK + 1;
    let mut blocks = Vec::with_capacity(alloc, number)?;
    for block in 0..number {
        let (first, end) = block_range(block, corners.len());
        blocks.push(BoundingBox::of_ring(&corners[first..end]))?;
    }
    Ok(blocks)
}

fn groups_of(alloc: Global, blocks: &[BoundingBox]) -> Result<Vec<BoundingBox>, AllocError>
    ensures { IfOk result (λ groups. AreGroupsOf blocks.now groups.items) }
{
    let number = blocks.len() / BLOCK + 1;
    let mut groups = Vec::with_capacity(alloc, number)?;
    for group in 0..number {
        let (first, end) = block_range(group, blocks.len());
        groups.push(BoundingBox::of_boxes(&blocks[first..end]))?;
    }
    Ok(groups)
}

pub fn holds_corner<P: PtrKey, A: ChainArenaTrait<P, Point> + Drop>(
    ring: &Polygons<P, Point, A>,
    index: &CornerIndex<P>,
    corners: &[Point],
    triangle: Triangle,
) -> bool
    requires index { IsIndexOf (A.entry ring.now) (map P.key index.now.pointers.items) corners.now
        index.now.blocks.items index.now.groups.items }
    requires positive { pos 0 <ℤ triangle_area triangle }
    ensures some { IsTrue result → HoldsCorner A.state A.interlinks ring.now triangle }
    ensures none { IsFalse result → HoldsCorner A.state A.interlinks ring.now triangle → ⊥ }
{
    let around = BoundingBox::of_triangle(triangle);
    for group in 0..index.groups.len() {
        if index.groups[group].meets(&around)
            && group_holds_corner(ring, index, corners, group, triangle)
        {
            return true;
        }
    }
    false
}

fn group_holds_corner<P: PtrKey, A: ChainArenaTrait<P, Point> + Drop>(
    ring: &Polygons<P, Point, A>,
    index: &CornerIndex<P>,
    corners: &[Point],
    group: usize,
    triangle: Triangle,
) -> bool
    requires blocks { AreBlocksOf corners.now index.now.blocks.items }
    requires positive { pos 0 <ℤ triangle_area triangle }
    ensures some { IsTrue result → HoldsCorner A.state A.interlinks ring.now triangle }
    ensures none { IsFalse result → (n : ℕ) → n / 32 / 32 ≡ group
        → IsClearAt (A.entry ring.now) (map P.key index.now.pointers.items) corners.now triangle n }
{
    let around = BoundingBox::of_triangle(triangle);
    let (first, end) = block_range(group, index.blocks.len());
    for block in first..end {
        if index.blocks[block].meets(&around)
            && block_holds_corner(ring, index, corners, block, triangle)
        {
            return true;
        }
    }
    false
}

fn block_holds_corner<P: PtrKey, A: ChainArenaTrait<P, Point> + Drop>(
    ring: &Polygons<P, Point, A>,
    index: &CornerIndex<P>,
    corners: &[Point],
    block: usize,
    triangle: Triangle,
) -> bool
    requires { pos 0 <ℤ triangle_area triangle }
    ensures some { IsTrue result → HoldsCorner A.state A.interlinks ring.now triangle }
    ensures none { IsFalse result → (n : ℕ) → n / 32 ≡ block
        → IsClearAt (A.entry ring.now) (map P.key index.now.pointers.items) corners.now triangle n }
{
    let around = BoundingBox::of_triangle(triangle);
    let (first, end) = block_range(block, corners.len().min(index.pointers.len()));
    for i in first..end {
        if is_there_within(ring, index.pointers[i], corners[i], &around, triangle) {
            return true;
        }
    }
    false
}

fn is_there_within<P: PtrKey, A: ChainArenaTrait<P, Point> + Drop>(
    ring: &Polygons<P, Point, A>,
    corner: P,
    point: Point,
    around: &BoundingBox,
    triangle: Triangle,
) -> bool
    requires { (p : Point) → IsInTriangle triangle p → IsInBox around.now p }
    ensures some { IsTrue result → HoldsCorner A.state A.interlinks ring.now triangle }
    ensures none { IsFalse result
        → A.entry ring.now (P.key corner).0 ≡ Some ((P.key corner).1, point)
        → IsInTriangle triangle point → ⊥ }
{
    around.has(point) && is_in_triangle(point, triangle) && is_there(ring, corner, triangle)
}

fn is_there<P: PtrKey, A: ChainArenaTrait<P, Point> + Drop>(
    ring: &Polygons<P, Point, A>,
    corner: P,
    triangle: Triangle,
) -> bool
    ensures some { IsTrue result → HoldsCorner A.state A.interlinks ring.now triangle }
    ensures none { IsFalse result → (point : Point)
        → A.entry ring.now (P.key corner).0 ≡ Some ((P.key corner).1, point)
        → IsInTriangle triangle point → ⊥ }
{
    match ring.get(corner) {
        Some(point) => is_in_triangle(*point, triangle),
        None => false,
    }
}
