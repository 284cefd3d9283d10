// The commands of a script, one by one. A command that is not done alters nothing.
ghost use Rattle.std.specs.Prelude.{◌≡◌, None};
ghost use Rattle.session.specs.Steps.{OnPile, Sized, Peeked, Poked, Fetched, Stored, Chilled, StoreMade, LayerMade, Executed};

use crate::making::{put_layer, zeroed_store};
use crate::reply::{End, Reply, Stop};
use caches::geometry::Geometry;
use memory::flat::Flat;
use memory::memory::Memory;
use memory::price::Price;
use piles::pile::Lines;
use piles::stack::Stack;
use script::command::{Command, NewLayer, NewStore};
use std::alloc::Global;

// The pile that the script made last, if any. Each call takes it by `ok_or`: a function that lent it would have to promise
// what comes back of the loan.
#[derive(Drop)]
pub struct Session<T> {
    pile: Option<T>,
}

impl<T: Stack<Lines, Flat> + Drop> Session<T> {
    // No pile yet.
    pub fn new() -> Session<T>
        ensures { result.pile ≡ None }
    {
        Session { pile: None }
    }

    // Does one command.
    pub fn execute(&mut self, heap: Global, command: Command) -> Result<Reply, Stop>
        ensures { Executed T.Memory.meaning T.Stack.room T.Stack.most command self.old.pile self.new.pile result }
    {
        match command {
            Command::Store(new) => self.store(heap, new),
            Command::Layer(new) => self.layer(new),
            Command::Size => self.size(),
            Command::Peek { address } => self.peek(address),
            Command::Poke { address, word } => self.poke(address, word),
            Command::Read { address } => self.read(address),
            Command::Write { address, word } => self.write(address, word),
            Command::Chill => self.chill(),
        }
    }

    fn store(&mut self, heap: Global, new: NewStore) -> Result<Reply, Stop>
        ensures { StoreMade T.Memory.meaning T.Stack.room T.Stack.most new self.old.pile self.new.pile result }
    {
        let store = zeroed_store(heap, new)?;
        self.pile = Some(T::base(store));
        Ok(Reply::Done)
    }

    fn layer(&mut self, new: NewLayer) -> Result<Reply, Stop>
        ensures { LayerMade T.Memory.meaning T.Stack.room T.Stack.most new self.old.pile self.new.pile result }
    {
        let pile = self.pile.as_mut().ok_or(End::NoPile)?;
        if pile.is_full() {
            return Err(End::TooManyLayers.into());
        }
        let hit = Price::new(new.hit)?;
        let geometry = Geometry::new(new.line, new.sets, new.ways)?;
        put_layer(pile, new.policy, geometry, hit)?;
        Ok(Reply::Done)
    }

    fn size(&mut self) -> Result<Reply, Stop>
        ensures { OnPile T.Memory.meaning Sized self.old.pile self.new.pile result }
    {
        let pile = self.pile.as_ref().ok_or(End::NoPile)?;
        Ok(Reply::Size(pile.size()))
    }

    fn peek(&mut self, address: usize) -> Result<Reply, Stop>
        ensures { OnPile T.Memory.meaning (Peeked address) self.old.pile self.new.pile result }
    {
        let pile = self.pile.as_ref().ok_or(End::NoPile)?;
        Ok(Reply::Word(pile.peek(address)?))
    }

    fn poke(&mut self, address: usize, word: u32) -> Result<Reply, Stop>
        ensures { OnPile T.Memory.meaning (Poked address word) self.old.pile self.new.pile result }
    {
        let pile = self.pile.as_mut().ok_or(End::NoPile)?;
        pile.poke(address, word)?;
        Ok(Reply::Done)
    }

    fn read(&mut self, address: usize) -> Result<Reply, Stop>
        ensures { OnPile T.Memory.meaning (Fetched address) self.old.pile self.new.pile result }
    {
        let pile = self.pile.as_mut().ok_or(End::NoPile)?;
        let (word, price) = pile.fetch(address)?;
        Ok(Reply::Read(word, price))
    }

    fn write(&mut self, address: usize, word: u32) -> Result<Reply, Stop>
        ensures { OnPile T.Memory.meaning (Stored address word) self.old.pile self.new.pile result }
    {
        let pile = self.pile.as_mut().ok_or(End::NoPile)?;
        Ok(Reply::Written(pile.store(address, word)?))
    }

    fn chill(&mut self) -> Result<Reply, Stop>
        ensures { OnPile T.Memory.meaning Chilled self.old.pile self.new.pile result }
    {
        let pile = self.pile.as_mut().ok_or(End::NoPile)?;
        pile.chill();
        Ok(Reply::Done)
    }
}
