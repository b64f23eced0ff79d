//! What happens in orders of all kinds, beside each connection alone.

use super::network::{Client, Network};
use super::{desk_over, responses, serve};
use crate::tests::TEXT;
use osm_index::{Edition, Snapshot};
use osm_traffic::TrafficFault;
use std::process::Abort;
use std::test::Fail;

/// A client got what it would get alone, or a beginning of it where it wasn't let go as a whole one.
fn check(
    rt: &(impl Abort + AllocGlobal),
    client: &Client,
    snapshot: &Snapshot,
) -> Result<(), Fail> {
    let sent = TEXT.get(..client.sent).unwrap_or(b"");
    let alone = responses(rt.alloc(), sent, snapshot)?;
    let got = client.got.as_slice();
    if client.end == Some(true) {
        assert_eq!(rt; got, alone.as_slice());
    } else {
        assert!(rt; alone.starts_with(got));
    }
    Ok(())
}

/// Serves so many connections of a network, and checks each.
fn run(
    rt: &(impl Abort + AllocGlobal),
    network: &mut Network,
    edition: Edition,
    connections: u32,
) -> Result<Result<(), TrafficFault>, Fail> {
    let mut desk = desk_over(rt.alloc(), edition)?;
    let outcome = serve(rt.alloc(), &mut desk, network, connections, None);
    for client in &network.clients {
        check(rt, client, desk.snapshot())?;
    }
    Ok(outcome)
}

/// 150 connections in one order, of which some break and some are let go.
fn run_seed(rt: &(impl Abort + AllocGlobal), seed: u64, edition: Edition) -> Result<(), Fail> {
    let mut network = Network::new(rt.alloc(), TEXT, seed, 100, 0);
    assert_eq!(rt; run(rt, &mut network, edition, 150)?, Ok(()));
    assert_eq!(rt; network.clients.len(), 150);
    assert!(rt; network.clients.iter().all(|client| client.end.is_some()));
    assert!(rt; network.most_open <= 64);
    Ok(())
}

#[test]
fn each_is_as_if_alone(rt: HostRuntime) -> Result<(), Fail> {
    for seed in 1..9 {
        run_seed(&rt, seed, Edition::One)?;
        run_seed(&rt, seed, Edition::Two { sequence: 7 })?;
    }
    Ok(())
}

/// Where no connection breaks, each gets all, and 64 are open at some time.
#[test]
fn sixty_four_are_served_at_once(rt: HostRuntime) -> Result<(), Fail> {
    let mut network = Network::new(rt.alloc(), TEXT, 5, 0, 0);
    assert_eq!(rt; run(&rt, &mut network, Edition::One, 200)?, Ok(()));
    assert!(rt;
        network
            .clients
            .iter()
            .all(|client| client.end == Some(true))
    );
    assert_eq!(rt; network.most_open, 64);
    Ok(())
}

/// Requests that come in bursts, a body and the requests after it in one, are answered one after the other, too.
#[test]
fn bursts_are_answered_one_by_one(rt: HostRuntime) -> Result<(), Fail> {
    for seed in 1..5 {
        let mut network = Network::new(rt.alloc(), TEXT, seed, 0, 0);
        network.in_bursts = true;
        assert_eq!(rt;
            run(&rt, &mut network, Edition::Two { sequence: 7 }, 20)?,
            Ok(())
        );
        assert!(rt;
            network
                .clients
                .iter()
                .all(|client| client.most_at_once == 1)
        );
    }
    Ok(())
}

/// Wherever the network fails, what was taken by then is the beginning of what is right.
#[test]
fn each_wait_may_fail(rt: HostRuntime) -> Result<(), Fail> {
    for number in 1..400 {
        let mut network = Network::new(rt.alloc(), TEXT, 3, 100, number);
        assert_eq!(rt;
            run(&rt, &mut network, Edition::One, 60)?,
            Err(TrafficFault::Device)
        );
    }
    Ok(())
}
