//! Fields, methods and the class (JVMS 8 sections 4.1, 4.5 and 4.6).

ghost use Rattle.std.specs.Prelude.{◌≡◌};
ghost use Rattle.kb_classfile.specs.Reading.{Gives, field, fields, method, methods, interfaces, version, head, members, class_body, class_file};

use crate::file::{ClassFile, Field, Method, PoolEntry};
use crate::pool::EntryKind;
use crate::reader::Reader;
use crate::refusal::ClassRefusal;
use kb_rows::Row;
use std::alloc::Global;

/// The number that each class file begins with.
const MAGIC: u32 = 0xCAFEBABE;

/// The major versions that are read: those up to Java 8.
const OLDEST_MAJOR: u16 = 45;

const NEWEST_MAJOR: u16 = 52;

/// What a class says of itself, between its constant pool and its fields.
#[derive(Drop)]
pub(crate) struct Head {
    access: u16,
    this: u16,
    parent: u16,
    interfaces: Row<u16>,
}

/// The fields and methods of a class.
#[derive(Drop)]
pub(crate) struct Members {
    fields: Row<Field>,
    methods: Row<Method>,
}

impl<'a> Reader<'a> {
    #[tactic(auto, unfolding(crate::specs::Reading::field))]
    fn field(&mut self, pool: &[PoolEntry]) -> Result<Field, ClassRefusal>
        ensures { Gives (λ field. (field, self.new)) result (field pool.now self.old) }
    {
        let access = self.u2()?;
        let name = self.index_of(EntryKind::Text, pool)?;
        let kind = self.index_of(EntryKind::Text, pool)?;
        self.skipped_attributes(pool)?;
        Ok(Field { access, name, kind })
    }

    #[tactic(auto, unfolding(crate::specs::Reading::fields))]
    fn fields(&mut self, alloc: Global, pool: &[PoolEntry]) -> Result<Row<Field>, ClassRefusal>
        ensures { Gives (λ fields. (fields, self.new)) result (fields pool.now self.old) }
    {
        let count = self.u2()?;
        let mut fields = Vec::new(alloc);
        for _ in 0..count {
            fields.push(self.field(pool)?)?;
        }
        Ok(Row::from_vec(fields))
    }

    /// The method with that number, from 0.
    #[tactic(auto, unfolding(crate::specs::Reading::method))]
    fn method(
        &mut self,
        alloc: Global,
        pool: &[PoolEntry],
        number: u32,
    ) -> Result<Method, ClassRefusal>
        ensures { Gives (λ method. (method, self.new)) result (method pool.now number self.old) }
    {
        let access = self.u2()?;
        let name = self.index_of(EntryKind::Text, pool)?;
        let kind = self.index_of(EntryKind::Text, pool)?;
        let code = self.method_attributes(alloc, pool, number)?;
        Ok(Method {
            access,
            name,
            kind,
            code,
        })
    }

    #[tactic(auto, unfolding(crate::specs::Reading::methods))]
    fn methods(&mut self, alloc: Global, pool: &[PoolEntry]) -> Result<Row<Method>, ClassRefusal>
        ensures { Gives (λ methods. (methods, self.new)) result (methods pool.now self.old) }
    {
        let count = self.u2()?;
        let mut methods = Vec::new(alloc);
        for number in 0..count {
            methods.push(self.method(alloc, pool, number as u32)?)?;
        }
        Ok(Row::from_vec(methods))
    }

    #[tactic(auto, unfolding(crate::specs::Reading::interfaces))]
    fn interfaces(&mut self, alloc: Global, pool: &[PoolEntry]) -> Result<Row<u16>, ClassRefusal>
        ensures { Gives (λ interfaces. (interfaces, self.new)) result (interfaces pool.now self.old) }
    {
        let count = self.u2()?;
        let mut interfaces = Vec::new(alloc);
        for _ in 0..count {
            interfaces.push(self.index_of(EntryKind::Class, pool)?)?;
        }
        Ok(Row::from_vec(interfaces))
    }

    /// The major version, behind a minor version that is let go.
    #[tactic(auto, unfolding(crate::specs::Reading::version))]
    fn version(&mut self) -> Result<u16, ClassRefusal>
        ensures { Gives (λ major. (major, self.new)) result (version self.old) }
    {
        self.u2()?;
        let major = self.u2()?;
        if major < OLDEST_MAJOR || NEWEST_MAJOR < major {
            return Err(ClassRefusal::Version(major));
        }
        Ok(major)
    }

    /// What stands between the constant pool and the fields.
    #[tactic(auto, unfolding(crate::specs::Reading::head))]
    fn head(&mut self, alloc: Global, pool: &[PoolEntry]) -> Result<Head, ClassRefusal>
        ensures { Gives (λ head. (head, self.new)) result (head pool.now self.old) }
    {
        let access = self.u2()?;
        let this = self.index_of(EntryKind::Class, pool)?;
        let parent = self.index_of(EntryKind::Class, pool)?;
        let interfaces = self.interfaces(alloc, pool)?;
        Ok(Head {
            access,
            this,
            parent,
            interfaces,
        })
    }

    /// The fields and methods, behind which the attributes of the class are skipped.
    #[tactic(auto, unfolding(crate::specs::Reading::members))]
    fn members(&mut self, alloc: Global, pool: &[PoolEntry]) -> Result<Members, ClassRefusal>
        ensures { Gives (λ members. (members, self.new)) result (members pool.now self.old) }
    {
        let fields = self.fields(alloc, pool)?;
        let methods = self.methods(alloc, pool)?;
        self.skipped_attributes(pool)?;
        Ok(Members { fields, methods })
    }

    /// All of a class file behind the magic number.
    #[tactic(auto, unfolding(crate::specs::Reading::class_body))]
    fn class_body(&mut self, alloc: Global) -> Result<ClassFile, ClassRefusal>
        ensures { Gives (λ file. (file, self.new)) result (class_body self.old) }
    {
        let major = self.version()?;
        let pool = self.pool(alloc)?;
        let head = self.head(alloc, pool.as_slice())?;
        let members = self.members(alloc, pool.as_slice())?;
        Ok(ClassFile {
            major,
            pool,
            access: head.access,
            this: head.this,
            parent: head.parent,
            interfaces: head.interfaces,
            fields: members.fields,
            methods: members.methods,
        })
    }

    /// A class file.
    #[tactic(auto, unfolding(crate::specs::Reading::class_file))]
    pub fn class_file(&mut self, alloc: Global) -> Result<ClassFile, ClassRefusal>
        ensures { Gives (λ file. (file, self.new)) result (class_file self.old) }
    {
        if self.u4()? != MAGIC {
            return Err(ClassRefusal::Magic);
        }
        self.class_body(alloc)
    }
}
