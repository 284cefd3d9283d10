// Each test runs a table: what is done, and what it should answer.
use crate::dear::Dear;
use caches::direct::DirectMapped;
use caches::geometry::Geometry;
use caches::layer::Layer;
use caches::lru::Lru;
use memory::fault::MemoryFault;
use memory::flat::{Flat, check_word_count};
use memory::memory::Memory;
use memory::price::{Price, Prices};
use std::process::Abort;
use std::test::Fail;

// The number and the place of a refusal, if it is one.
fn told<T: Drop>(answer: Result<T, MemoryFault>) -> Option<(u32, usize)> {
    answer.err().map(|fault| (fault.number(), fault.place()))
}

// A store of so many zero words at 5 and 5.
fn store(rt: &HostRuntime, size: usize) -> Result<Flat, Fail> {
    Ok(Flat::new(vec![in rt.alloc(); 0; size]?, Prices::new(5, 5)?))
}

// A request at an address.
#[derive(Clone, Copy)]
enum Request {
    Read(usize),
    Write(usize),
}

use Request::{Read, Write};

// Each request with its price.
fn follow<M: Memory>(
    rt: &impl Abort,
    memory: &mut M,
    steps: &[(Request, u32)],
) -> Result<(), Fail> {
    for (request, price) in steps {
        let paid = match *request {
            Read(address) => memory.fetch(address)?.1,
            Write(address) => memory.store(address, 7)?,
        };
        assert_eq!(rt; paid, *price);
    }
    Ok(())
}

#[test]
fn geometries(rt: HostRuntime) {
    let rows: [(usize, usize, usize, Option<usize>); 18] = [
        (1, 1, 1, None),
        (16, 64, 1, None),
        (16, 16, 4, None),
        (8, 8, 8, None),
        (2, 32, 2, None),
        (16, 16, 8, Some(4)),
        (1, 64, 2, Some(4)),
        (4, 2, 0, Some(3)),
        (4, 2, 9, Some(3)),
        (4, 0, 1, Some(2)),
        (4, 3, 1, Some(2)),
        (4, 128, 1, Some(2)),
        (0, 2, 1, Some(1)),
        (12, 2, 1, Some(1)),
        (32, 2, 1, Some(1)),
        (3, 3, 9, Some(1)),
        (4, 3, 9, Some(2)),
        (4, usize::MAX, usize::MAX, Some(2)),
    ];
    for (line, sets, ways, place) in rows {
        assert_eq!(rt;
            told(Geometry::new(line, sets, ways)),
            place.map(|rule| (4, rule))
        );
    }
}

#[test]
fn settings(rt: HostRuntime) {
    for count in [1, 4096] {
        assert_eq!(rt; told(check_word_count(count)), None);
    }
    for count in [0, 4097, usize::MAX] {
        assert_eq!(rt; told(check_word_count(count)), Some((1, count)));
    }
    let prices: [(usize, usize, Option<usize>); 5] = [
        (0, 0, None),
        (255, 255, None),
        (256, 0, Some(1)),
        (0, 256, Some(2)),
        (256, 256, Some(1)),
    ];
    for (read, write, place) in prices {
        assert_eq!(rt;
            told(Prices::new(read, write)),
            place.map(|setting| (3, setting))
        );
    }
    assert_eq!(rt; told(Price::new(255)), None);
    assert_eq!(rt; told(Price::new(256)), Some((3, 1)));
}

#[test]
fn spans(rt: HostRuntime) -> Result<(), Fail> {
    let rows: [(usize, usize, usize, Option<usize>); 10] = [
        (1024, 1022, 2, None),
        (1024, 1023, 2, Some(1024)),
        (1024, 0, 1024, None),
        (1024, 0, 1025, Some(1024)),
        (1024, 1024, 1, Some(1024)),
        (1024, 5000, 1, Some(5000)),
        (1024, usize::MAX, usize::MAX, Some(usize::MAX)),
        (1024, usize::MAX, 0, None),
        (0, 0, 1, Some(0)),
        (0, 9, 0, None),
    ];
    for (size, first, count, place) in rows {
        let memory = store(&rt, size)?;
        assert_eq!(rt;
            told(memory.admits(first, count)),
            place.map(|address| (9, address))
        );
    }
    Ok(())
}

#[test]
fn direct_mapped(rt: HostRuntime) -> Result<(), Fail> {
    let policy = DirectMapped::new(Geometry::new(4, 2, 8)?);
    let mut memory = Layer::new(policy, Price::new(1)?, store(&rt, 16)?);
    let steps = [
        (Read(0), 6),
        (Read(3), 1),
        (Read(8), 6),
        (Read(0), 6),
        (Write(0), 6),
        (Write(4), 6),
        (Read(4), 6),
        (Read(7), 1),
        (Read(1), 1),
    ];
    follow(&rt, &mut memory, &steps)?;
    memory.chill();
    follow(&rt, &mut memory, &[(Read(1), 6), (Read(4), 6)])?;
    assert_eq!(rt; told(memory.fetch(16)), Some((9, 16)));
    assert_eq!(rt; memory.peek(4)?, 7);
    Ok(())
}

#[test]
fn least_recently_used(rt: HostRuntime) -> Result<(), Fail> {
    let policy = Lru::new(Geometry::new(4, 1, 2)?);
    let mut memory = Layer::new(policy, Price::new(1)?, store(&rt, 16)?);
    let steps = [
        (Read(0), 6),
        (Read(4), 6),
        (Read(0), 1),
        (Read(8), 6),
        (Read(4), 6),
        (Read(0), 6),
        (Write(12), 6),
        (Read(12), 6),
        (Read(1), 1),
        (Read(4), 6),
    ];
    follow(&rt, &mut memory, &steps)
}

// A price stops at 65,535, however high the pile.
#[test]
fn saturation(rt: HostRuntime) -> Result<(), Fail> {
    let below = Dear { words: [0; 4] };
    let lines = Geometry::new(1, 1, 1)?;
    let one = Layer::new(DirectMapped::new(lines), Price::new(100)?, below);
    let two = Layer::new(Lru::new(lines), Price::new(36)?, one);
    let mut three = Layer::new(DirectMapped::new(lines), Price::new(255)?, two);
    let steps = [
        (Read(0), 65535),
        (Read(0), 255),
        (Write(0), 65535),
        (Read(1), 65535),
    ];
    follow(&rt, &mut three, &steps)
}

// Four layers in a mixed order: each answers for the memory below it.
#[test]
fn tall_pile(rt: HostRuntime) -> Result<(), Fail> {
    let far = Layer::new(
        Lru::new(Geometry::new(16, 1, 1)?),
        Price::new(4)?,
        store(&rt, 32)?,
    );
    let third = Layer::new(
        DirectMapped::new(Geometry::new(4, 2, 1)?),
        Price::new(3)?,
        far,
    );
    let second = Layer::new(Lru::new(Geometry::new(4, 1, 2)?), Price::new(2)?, third);
    let mut top = Layer::new(
        DirectMapped::new(Geometry::smallest()),
        Price::new(1)?,
        second,
    );
    let steps = [
        (Read(0), 15),
        (Read(1), 3),
        (Read(0), 3),
        (Read(0), 1),
        (Write(0), 15),
        (Read(8), 10),
        (Read(16), 15),
    ];
    follow(&rt, &mut top, &steps)?;
    top.chill();
    follow(&rt, &mut top, &[(Read(0), 15), (Read(8), 10)])
}
