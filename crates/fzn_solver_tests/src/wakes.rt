// What becomes of a set, and which events are among that, by hand.
use fzn_domain::Domain;
use fzn_propagator::{Change, Event};
use std::test::*;

fn name_of(event: Event) -> &'static str {
    match event {
        Event::Any => "any",
        Event::Bound => "bound",
        Event::Low => "low",
        Event::High => "high",
        Event::Fixed => "fixed",
    }
}

#[test]
fn changes_of_sets(rt: HostRuntime) -> Result<(), Fail> {
    let cases = [
        // what is left of 1..4; the events among its changes
        (1, 3, "any bound high"),
        (2, 4, "any bound low"),
        (2, 3, "any bound low high"),
        (1, 1, "any bound high fixed"),
        (4, 4, "any bound low fixed"),
        (1, 4, "any"),
    ];
    let alloc = rt.alloc();
    let before = Domain::range(alloc, 1, 4)?;
    for (low, high, wanted) in cases {
        let change = Change::between(&before, &Domain::range(alloc, low, high)?);
        let mut text = String::new(alloc);
        for event in [
            Event::Any,
            Event::Bound,
            Event::Low,
            Event::High,
            Event::Fixed,
        ] {
            if event.is(change) {
                let gap = if text.is_empty() { "" } else { " " };
                write!(text, "{gap}{}", name_of(event))?;
            }
        }
        assert_eq!(rt; text.as_str(), wanted, "{low}..{high}");
    }
    Ok(())
}
