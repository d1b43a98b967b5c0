use book_words::{Act, Ask, Name, Unit, Want};
use office_wire::{MAX_BODY, desk_ask};
use std::fmt;
use std::test::Fail;

// Bodies that are no act of a desk.
const NO_ACTS: [&[u8]; 15] = [
    b"",
    b"[]",
    b"{\"act\":\"weigh\",\"desk\":101,\"request\":1}",
    b"{\"act\":\"void\",\"desk\":0,\"request\":7,\"pack\":30}",
    b"{\"act\":\"void\",\"desk\":65536,\"request\":7,\"pack\":30}",
    b"{\"act\":\"void\",\"desk\":101,\"request\":4294967296,\"pack\":30}",
    b"{\"act\":\"void\",\"desk\":101,\"request\":7,\"pack\":30.0}",
    b"{\"act\":\"void\",\"desk\":101,\"request\":7}",
    b"{\"act\":\"end\",\"desk\":101,\"request\":7,\"batch\":\"\"}",
    b"{\"act\":\"end\",\"desk\":101,\"request\":7,\"batch\":\"A\xff\"}",
    b"{\"act\":\"product_ml\",\"desk\":101,\"request\":7,\"name\":\"a\"}",
    b"{\"act\":\"open_at\",\"desk\":101,\"request\":7,\"batch\":\"J\",\"product\":\"a\"}",
    b"{\"act\":\"open_at\",\"desk\":101,\"request\":7,\"batch\":\"J\",\"product\":\"a\",\
\"density\":-1}",
    b"{\"act\":\"open_at\",\"desk\":101,\"request\":7,\"batch\":\"J\",\"product\":\"a\",\
\"density\":1.5}",
    b"{\"act\":\"open_at\",\"desk\":101,\"request\":7,\"batch\":\"J\",\"product\":\"a\",\
\"density\":4294967296}",
];

// What desk 101 asks by request 1.
fn asked(act: Act) -> Option<Ask> {
    Some(Ask {
        desk: 101,
        request: 1,
        want: Want::Act(act),
    })
}

#[test]
fn a_product_of_a_desk(rt: HostRuntime) -> Result<(), Fail> {
    let body =
        b"{\"act\":\"product\",\"desk\":101,\"request\":1,\"name\":\"a\",\"nominal\":250000}";
    let name = Name::new(b"a".as_slice()).ok_or(fmt::Error)?;
    let act = Act::PutProduct {
        name,
        nominal: 250_000,
        unit: Unit::Mass,
    };
    assert!(rt; desk_ask(rt.alloc(), body)? == asked(act));
    Ok(())
}

#[test]
fn goods_by_volume_of_a_desk(rt: HostRuntime) -> Result<(), Fail> {
    let name = Name::new(b"a".as_slice()).ok_or(fmt::Error)?;
    let body =
        b"{\"act\":\"product_ml\",\"desk\":101,\"request\":1,\"name\":\"a\",\"nominal\":1000000}";
    let product = Act::PutProduct {
        name,
        nominal: 1_000_000,
        unit: Unit::Volume,
    };
    assert!(rt; desk_ask(rt.alloc(), body)? == asked(product));
    let body = b"{\"act\":\"open_at\",\"desk\":101,\"request\":1,\"batch\":\"a\",\"product\":\"a\",\
\"density\":4294967295}";
    let opening = Act::OpenBatch {
        batch: name,
        product: name,
        density: 4_294_967_295,
    };
    assert!(rt; desk_ask(rt.alloc(), body)? == asked(opening));
    Ok(())
}

// A longest body of nothing but beginnings of lists, which nests deeper than `serde_json` reads.
const DEEP: [u8; MAX_BODY] = [b'['; MAX_BODY];

#[test]
fn bodies_that_are_no_acts(rt: HostRuntime) -> Result<(), Fail> {
    for body in &NO_ACTS {
        let asked = desk_ask(rt.alloc(), body)?;
        assert!(rt; asked.is_none());
    }
    assert!(rt; desk_ask(rt.alloc(), &DEEP)?.is_none());
    Ok(())
}
