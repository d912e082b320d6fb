//! A row of numbers, and the plain values that are read from it.
use crate::stop::{Result, Stop};
use coin_frac::Unit;
use gov_ids::{Account, ActionId, CredKind, Credential, TxId};
use std::alloc::Global;

// The numbers of a line, and how many of them were read. Past the end each is 0.
#[derive(Drop)]
pub(crate) struct Numbers {
    all: Vec<u64>,
    asked: usize,
}

impl Numbers {
    pub(crate) fn of_line(alloc: Global, line: &str) -> Result<Numbers> {
        let mut all = Vec::new(alloc);
        for word in line.split_whitespace() {
            all.push(word.parse::<u64>()?)?;
        }
        Ok(Numbers { all, asked: 0 })
    }

    // A row that is too short or too long is refused.
    pub(crate) fn end(&self) -> Result<()> {
        if self.asked == self.all.len() {
            Ok(())
        } else {
            Err(Stop)
        }
    }

    pub(crate) fn next(&mut self) -> u64 {
        let n = self.all.get(self.asked).copied().unwrap_or(0);
        self.asked = self.asked.saturating_add(1);
        n
    }

    pub(crate) fn next_u32(&mut self) -> u32 {
        u32::try_from(self.next()).unwrap_or(u32::MAX)
    }

    pub(crate) fn next_u16(&mut self) -> u16 {
        u16::try_from(self.next()).unwrap_or(u16::MAX)
    }

    pub(crate) fn next_byte(&mut self) -> u8 {
        u8::try_from(self.next()).unwrap_or(u8::MAX)
    }

    pub(crate) fn is_there(&mut self) -> bool {
        self.next() == 1
    }

    // Numerator and denominator. What is no fraction up to 1 is read as the nearest.
    pub(crate) fn unit(&mut self) -> Unit {
        let num = self.next();
        let den = self.next().max(1);
        Unit::new(num.min(den), den).unwrap()
    }

    pub(crate) fn key(&mut self) -> Credential {
        key(self.next_byte())
    }

    pub(crate) fn account(&mut self) -> Account {
        Account {
            network: 1,
            cred: self.key(),
        }
    }

    pub(crate) fn id(&mut self) -> ActionId {
        ActionId {
            tx: TxId([self.next_byte(); 32]),
            index: self.next_u16(),
        }
    }

    pub(crate) fn previous(&mut self) -> Option<ActionId> {
        if self.is_there() {
            Some(self.id())
        } else {
            None
        }
    }

    // A script by its byte, 0 for none.
    pub(crate) fn script(&mut self) -> Option<[u8; 28]> {
        match self.next_byte() {
            0 => None,
            byte => Some([byte; 28]),
        }
    }

    pub(crate) fn dreps_thresholds(&mut self) -> [Unit; 10] {
        let mut all = [self.unit(); 10];
        for i in 1..10 {
            all[i] = self.unit();
        }
        all
    }

    pub(crate) fn pools_thresholds(&mut self) -> [Unit; 5] {
        let mut all = [self.unit(); 5];
        for i in 1..5 {
            all[i] = self.unit();
        }
        all
    }

    // So many credentials, each with a number.
    pub(crate) fn pairs(&mut self, alloc: Global) -> Result<Vec<(Credential, u64)>> {
        let mut all = Vec::new(alloc);
        for _ in 0..self.next() {
            let cred = self.key();
            all.push((cred, self.next()))?;
        }
        Ok(all)
    }
}

pub(crate) fn key(byte: u8) -> Credential {
    Credential {
        hash: [byte; 28],
        kind: CredKind::Key,
    }
}
