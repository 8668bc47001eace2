//! The stores on examples.

#![tactic(auto)]

#[cfg(test)]
mod renamed;

#[cfg(test)]
mod tests {
    use crate::renamed::Renamed;
    use chain::{Head, chain_over};
    use slab_store::{Slot, slab_over};
    use split::Split;
    use std::test::Fail;
    use store::{Denial, Name, Store, calls};

    // The kind and the question's number in a denial.
    fn numbers(denial: Denial) -> (u8, u8) {
        (denial.kind, denial.question.number())
    }

    // Holders 0 to 1 in the first store, 2 to 5 in the second, the others in the third.
    #[test]
    fn packets_wander_through_nested_splits(rt: HostRuntime) -> Result<(), Fail> {
        let mut first = [7u8; 600];
        let mut first_slots = [Slot::free(); 4];
        let mut second = [9u8; 200];
        let mut links = [3usize; 5];
        let mut heads = [Head::free(); 7];
        let mut third = [1u8; 800];
        let mut third_slots = [Slot::free(); 3];
        let near = Split::new(
            slab_over(&mut first, &mut first_slots),
            chain_over(&mut second, &mut links, &mut heads),
            1,
        );
        let mut store = Split::new(near, slab_over(&mut third, &mut third_slots), 5);
        assert_eq!(rt; store.capacity(), 2);
        assert_eq!(rt; store.need(33), 2);
        let name = Name { maker: 1, count: 0 };
        assert!(rt; calls::make(&mut store, name, 40).is_ok());
        assert!(rt; calls::write(&mut store, name, 39, 44).is_ok());
        for holder in [3u8, 9, 0, 4] {
            assert!(rt; calls::hand(&mut store, name, holder).is_ok());
            assert_eq!(rt; store.holder(name), Ok(holder));
            assert_eq!(rt; store.read(name, 39), Ok(44));
            assert_eq!(rt; store.used(), 2);
        }
        let refused = calls::make(&mut store, Name { maker: 2, count: 0 }, 0);
        assert_eq!(rt; refused.map_err(numbers), Err((3, 62)));
        assert!(rt; calls::discard(&mut store, name).is_ok());
        assert_eq!(rt; store.used(), 0);
        Ok(())
    }

    // Made over a store in use, a split holds nothing and takes nothing.
    #[test]
    fn a_split_over_a_store_in_use(rt: HostRuntime) -> Result<(), Fail> {
        let mut first = [0u8; 512];
        let mut first_slots = [Slot::free(); 2];
        let mut second = [0u8; 512];
        let mut second_slots = [Slot::free(); 2];
        let mut near = slab_over(&mut first, &mut first_slots);
        let name = Name { maker: 0, count: 7 };
        assert!(rt; near.make(name, 5).is_ok());
        let mut store = Split::new(near, slab_over(&mut second, &mut second_slots), 3);
        assert_eq!(rt; store.capacity(), 0);
        assert_eq!(rt; store.largest(), 256);
        assert_eq!(rt; store.used(), 0);
        assert_eq!(rt; calls::read(&store, name, 0).map_err(numbers), Err((3, 63)));
        assert_eq!(rt;
            calls::make(&mut store, name, 5).map_err(numbers),
            Err((3, 62))
        );
        Ok(())
    }

    // A store with a kind of its own and a lifetime parameter, alone and in a split.
    #[test]
    fn a_store_of_another_kind(rt: HostRuntime) -> Result<(), Fail> {
        let mut first = [5u8; 256];
        let mut first_slots = [Slot::free(); 1];
        let mut second = [6u8; 512];
        let mut second_slots = [Slot::free(); 2];
        let mut near = Renamed {
            slab: slab_over(&mut first, &mut first_slots),
        };
        let name = Name { maker: 2, count: 1 };
        assert_eq!(rt; calls::size(&near, name).map_err(numbers), Err((9, 63)));
        assert!(rt; calls::make(&mut near, name, 3).is_ok());
        assert_eq!(rt; near.read(name, 2), Ok(0));
        assert_eq!(rt;
            calls::make(&mut near, name, 3).map_err(numbers),
            Err((9, 60))
        );
        assert!(rt; calls::discard(&mut near, name).is_ok());
        let mut store = Split::new(near, slab_over(&mut second, &mut second_slots), 1);
        assert!(rt; calls::make(&mut store, name, 3).is_ok());
        assert!(rt; calls::hand(&mut store, name, 0).is_ok());
        assert_eq!(rt; store.size(name), Ok(3));
        assert_eq!(rt; calls::read(&store, name, 3).map_err(numbers), Err((3, 64)));
        Ok(())
    }
}
