//! Replies, pots and words, with the lines that each must give.
use report::{PotsWord, pots_line, reply_line, words_line};
use std::test::Fail;
use tx_records::{FieldName, Pots, Reply, Rule, rules};

#[test]
fn lines_of_replies(rt: HostRuntime) -> Result<(), Fail> {
    let mut line = Vec::new(rt.alloc());
    for (line_number, number, what, place, first, second, text) in [
        (
            6,
            rules::MALFORMED,
            Some(FieldName::Certs),
            Some(1),
            0,
            0,
            "6 refused 1 Malformed certs[1]\n",
        ),
        (
            7,
            rules::MALFORMED,
            Some(FieldName::Json),
            None,
            0,
            0,
            "7 refused 1 Malformed json\n",
        ),
        (
            9,
            rules::MALFORMED,
            Some(FieldName::EpochLength),
            Some(u32::MAX),
            0,
            0,
            "9 refused 1 Malformed epochLength[4294967295]\n",
        ),
        (
            8,
            rules::TOO_LONG,
            None,
            None,
            0,
            0,
            "8 refused 2 TooLong\n",
        ),
        (
            2,
            rules::INPUT_MISSING,
            None,
            Some(0),
            0,
            0,
            "2 refused 33 InputMissing at 0\n",
        ),
        (
            2,
            rules::OUTPUT_TOO_SMALL,
            None,
            Some(0),
            160,
            0,
            "2 refused 38 OutputTooSmall at 0 min 160\n",
        ),
        (
            2,
            rules::NOT_BALANCED,
            None,
            None,
            20,
            21,
            "2 refused 110 NotBalanced consumed 20 produced 21\n",
        ),
        (
            3,
            rules::ASSET_NOT_BALANCED,
            None,
            Some(0),
            7,
            5,
            "3 refused 111 AssetNotBalanced at 0 consumed 7 produced 5\n",
        ),
        (
            u64::MAX,
            rules::NOT_BALANCED,
            None,
            None,
            0,
            u128::MAX,
            "18446744073709551615 refused 110 NotBalanced consumed 0 produced 340282366920938463463374607431768211455\n",
        ),
    ] {
        let rule = Rule {
            number,
            what,
            place,
            first,
            second,
        };
        reply_line(&mut line, line_number, &Reply::Refused(rule))?;
        assert!(rt; line.as_slice() == text.as_bytes(), "{text}");
    }
    Ok(())
}

/// What follows the number of each rule, where it is broken at place 3 and keeps 7, or 7 and 8.
static TEXTS: [(u16, &'static str); 64] = [
    (2, " TooLong at 3"),
    (3, " GenesisAgain at 3"),
    (10, " SlotNotLater at 3 last 7"),
    (11, " EpochSkipped at 3 now 7"),
    (12, " ZeroPulse at 3"),
    (20, " WrongEpoch at 3 now 7"),
    (21, " RewardsAlreadyGiven at 3"),
    (22, " RewardsNotBalanced at 3 in 7 out 8"),
    (23, " ReservesTooSmall at 3 have 7"),
    (24, " FeesTooSmall at 3 have 7"),
    (30, " TxIdUsed at 3"),
    (31, " NotWitnessed at 3"),
    (32, " NoInputs at 3"),
    (33, " InputMissing at 3"),
    (34, " InputRepeated at 3"),
    (35, " TxTooLarge at 3 max 7"),
    (36, " OutsideValidity at 3 slot 7"),
    (37, " FeeTooSmall at 3 min 7"),
    (38, " OutputTooSmall at 3 min 7"),
    (39, " OutputWrongNetwork at 3"),
    (40, " TooManyCollateral at 3 max 7"),
    (41, " NoCollateral at 3"),
    (42, " CollateralMissing at 3"),
    (43, " CollateralNotKey at 3"),
    (44, " CollateralTooSmall at 3 have 7"),
    (45, " TreasuryValueWrong at 3 is 7"),
    (46, " CollateralAssetsWrong at 3"),
    (50, " WithdrawalWrongNetwork at 3"),
    (51, " WithdrawalNoAccount at 3"),
    (52, " WithdrawalNotDelegated at 3"),
    (53, " WithdrawalNotWhole at 3 balance 7"),
    (60, " AccountRegistered at 3"),
    (61, " AccountUnknown at 3"),
    (62, " DepositWrong at 3 want 7"),
    (63, " RefundWrong at 3 want 7"),
    (64, " BalanceNotZero at 3 balance 7"),
    (65, " PoolUnknown at 3"),
    (66, " DrepUnknown at 3"),
    (67, " DrepRegistered at 3"),
    (68, " PoolCostTooLow at 3 min 7"),
    (69, " PoolWrongNetwork at 3"),
    (70, " RetirementEpochWrong at 3 now 7"),
    (71, " ColdKeyUnknown at 3"),
    (72, " ColdKeyResigned at 3"),
    (73, " PoolKeyInUse at 3"),
    (80, " ProposalDepositWrong at 3 want 7"),
    (81, " ReturnWrongNetwork at 3"),
    (82, " ReturnAccountUnknown at 3"),
    (83, " UpdateMalformed at 3"),
    (84, " PolicyWrong at 3"),
    (85, " TargetWrongNetwork at 3"),
    (86, " TargetUnknown at 3"),
    (87, " ZeroWithdrawal at 3"),
    (88, " ConflictingUpdate at 3"),
    (89, " TermTooSmall at 3"),
    (90, " PreviousWrong at 3"),
    (91, " CannotFollow at 3"),
    (100, " ActionUnknown at 3"),
    (101, " VoterUnknown at 3"),
    (102, " VoterNotAllowed at 3"),
    (103, " VotingExpired at 3"),
    (104, " VoterNotSeated at 3"),
    (110, " NotBalanced at 3 consumed 7 produced 8"),
    (111, " AssetNotBalanced at 3 consumed 7 produced 8"),
];

/// Each rule, and each number below 200 that is none, which prints alone.
#[test]
fn lines_of_all_rules(rt: HostRuntime) -> Result<(), Fail> {
    let mut line = Vec::new(rt.alloc());
    for number in 2..200 {
        let text = TEXTS.iter().find(|text| text.0 == number);
        let text = text.map_or("", |text| text.1);
        let wanted = format!(in rt.alloc(); "5 refused {number}{text}\n")?;
        let reply = Reply::Refused(Rule::keeping_two(number, 7, 8).at(3));
        reply_line(&mut line, 5, &reply)?;
        assert!(rt; line.as_slice() == wanted.as_bytes(), "{wanted}");
    }
    Ok(())
}

const POTS: Pots = Pots {
    outputs: 200,
    deposits: 21,
    rewards: 100,
    fees: 0,
    donations: 0,
    treasury: 100,
    reserves: 579,
};

const POTS_TEXT: &str =
    "outputs 200 deposits 21 rewards 100 fees 0 donations 0 treasury 100 reserves 579 supply 1000";

#[test]
fn lines_of_pots_and_words(rt: HostRuntime) -> Result<(), Fail> {
    let mut line = Vec::new(rt.alloc());
    for (number, word, text) in [
        (1, PotsWord::Genesis, "1 genesis"),
        (12, PotsWord::Pots, "12 pots"),
    ] {
        pots_line(&mut line, number, word, &POTS)?;
        let wanted = format!(in rt.alloc(); "{text} {POTS_TEXT}\n")?;
        assert!(rt; line.as_slice() == wanted.as_bytes(), "{wanted}");
    }
    for (number, words, text) in [
        (3, ["committee", "none"].as_slice(), "3 committee none\n"),
        (4, [].as_slice(), "4\n"),
    ] {
        words_line(&mut line, number, words)?;
        assert!(rt; line.as_slice() == text.as_bytes(), "{text}");
    }
    for (reply, text) in [
        (Reply::Accepted, "2 accepted\n"),
        (Reply::AcceptedFailedScripts, "2 accepted failed-scripts\n"),
    ] {
        reply_line(&mut line, 2, &reply)?;
        assert!(rt; line.as_slice() == text.as_bytes(), "{text}");
    }
    Ok(())
}
