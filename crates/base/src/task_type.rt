// How a task is scheduled.
ghost use Rattle.std.specs.Prelude.{◌≡◌};
ghost use Rattle.base.specs.Small.{task_type_number, TaskTypeOf};

use crate::error::ContainerError;

#[derive(Clone, Copy, Debug, PartialEq, Eq)]
pub enum TaskType {
    Cyclic = 0,
    Event = 1,
    Freewheeling = 2,
}

impl TaskType {
    pub fn number(self) -> u8
        ensures { result ≡ task_type_number self }
    {
        self as u8
    }
}

impl TryFrom<u8> for TaskType {
    type Error = ContainerError;

    ghost try_from_gives = { TaskTypeOf };

    fn try_from(value: u8) -> Result<Self, ContainerError> {
        match value {
            0 => Ok(TaskType::Cyclic),
            1 => Ok(TaskType::Event),
            2 => Ok(TaskType::Freewheeling),
            _ => Err(ContainerError::InvalidTaskType(value)),
        }
    }
}
