//! The numbers with which the program ends.
use commands::{GenesisCause, Status};
use tx_records::GenesisRule;

#[test]
fn ends_with_the_number(rt: HostRuntime) {
    for (status, number) in [
        (Status::Done, 0),
        (Status::Usage, 2),
        (Status::BadGenesis(GenesisCause::Missing), 3),
        (Status::BadGenesis(GenesisCause::TooLong), 3),
        (Status::BadGenesis(GenesisCause::NoGenesis), 3),
        (
            Status::BadGenesis(GenesisCause::Broken(GenesisRule::SumWrong)),
            3,
        ),
        (Status::ReadFault, 4),
        (Status::WriteFault, 5),
        (Status::NoMemory, 6),
        (Status::TooMuch, 7),
    ] {
        assert_eq!(rt; status.number(), number, "{status:?}");
    }
}
