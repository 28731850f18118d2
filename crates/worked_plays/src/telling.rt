//! Certificates that are told from bytes, and what one action earns.

use crate::texts::{MATCHING_PENNIES, MATCHING_PENNIES_CERTIFICATE, THREE_HALVED_CERTIFICATE};
use cert_text::{CertFault, CertKind};
use controller::Certificate;
use game_model::Game;
use game_text::{Kind, TextFault};
use promises::{Untold, always_earns, told};
use std::alloc::{AllocError, Global};
use std::test::Fail;

/// More bytes than any two texts here have.
const MANY: usize = 4096;

/// What is told of two texts, one at once after the other.
fn told_of(
    alloc: Global,
    game: &[u8],
    certificate: &[u8],
) -> Result<Option<Result<(Game, Certificate), Untold>>, AllocError> {
    let mut bytes = Vec::from_slice(alloc, game)?;
    bytes.extend_from_slice(certificate)?;
    if bytes.len() > MANY {
        return Ok(None);
    }
    Ok(Some(told(alloc, &bytes)))
}

#[test]
fn a_certificate_that_stands_is_told(rt: HostRuntime) -> Result<(), Fail> {
    let found = told_of(rt.alloc(), MATCHING_PENNIES, MATCHING_PENNIES_CERTIFICATE)?;
    let Some(Ok((game, certificate))) = found else {
        panic!(rt; "nothing is told");
    };
    assert_eq!(rt; certificate.start_nodes.len(), 1);
    for action in 0..game.own_actions() {
        assert_eq!(rt; always_earns(&game, action), -65536);
    }
    Ok(())
}

#[test]
fn what_is_wrong_is_told(rt: HostRuntime) -> Result<(), Fail> {
    let version = TextFault::Line {
        line: 1,
        kind: Kind::Version,
    };
    let range = CertFault::Line {
        line: 10,
        kind: CertKind::Range,
    };
    let raised = b"certificate 1\noutcome closed\ngap 1/100\nlower 1/65536\nupper 1/65536\n\
        tail 65536/65536\nsizes 1 1\nstart 0 0\nnode 0\nvector 0\nmix 32768 32768\n\
        next 0 0 0 32768\nnext 1 0 0 32768\npoint 0\nbelief 1\nvalue 0\n\
        mix 0 32768 32768\nsplit 0 0 0 65536\nsplit 1 0 0 65536\nend\n";
    let cases = [
        (
            b"osposg 3\n".as_slice(),
            b"".as_slice(),
            Untold::Game(version),
        ),
        (
            MATCHING_PENNIES,
            THREE_HALVED_CERTIFICATE,
            Untold::Certificate(range),
        ),
        (MATCHING_PENNIES, raised.as_slice(), Untold::Fails),
    ];
    for (game, certificate, wanted) in cases {
        let Some(Err(untold)) = told_of(rt.alloc(), game, certificate)? else {
            panic!(rt; "a certificate is told");
        };
        assert_eq!(rt; untold, wanted);
    }
    Ok(())
}
